// What is to be shown of sheets as text, each theorem held by a named clause of a function that does nothing.
ghost use Rattle.bmap.specs.Theorems.{SheetLinesReturn, SheetReturns, SheetTextFits};

// Lines that were read and written again, a sheet that was written and read again, and the longest text.
pub fn texts()
    ensures lines_return { SheetLinesReturn }
    ensures returns { SheetReturns }
    ensures fits { SheetTextFits }
{}
