// What document 02 asks to be shown of supplements, each theorem held by a named clause of a function that does nothing.
ghost use Rattle.bmap.specs.Theorems.{EmptyChangesNothing, SupplementStands, SupplementLinesReturn, InForceJudged, LaidAccepted, OrderedOrders, LayingAssociates, EmptyOnlyOrders, OverItself, ApartCommutes, JudgedUnderBoth};

// K7: an empty one, one that was read, and the law in force.
pub fn replacements()
    ensures empty { EmptyChangesNothing }
    ensures stands { SupplementStands }
    ensures lines_return { SupplementLinesReturn }
    ensures in_force { InForceJudged }
{}

// K8: what is laid over another.
pub fn layings()
    ensures accepted { LaidAccepted }
    ensures ordered { OrderedOrders }
    ensures associates { LayingAssociates }
    ensures empty { EmptyOnlyOrders }
    ensures itself { OverItself }
    ensures apart { ApartCommutes }
    ensures in_turn { JudgedUnderBoth }
{}
