// What document 02 asks to be shown of the programs, held by a named clause of a function that does nothing.
ghost use Rattle.bmap.specs.Theorems.{LowWaterAlike};

// K7: `low_water` prints as `waroth` does where there is no supplement.
pub fn programs()
    ensures alike { LowWaterAlike }
{}
