// What is to be shown of sessions, each theorem held by a named clause of a function that does nothing.
ghost use Rattle.bmap.specs.Theorems.{OpenExactly, SheetsStand};

// Which sessions are open, and the sheet and the verdict of each.
pub fn sessions()
    ensures open_exactly { OpenExactly }
    ensures sheets_stand { SheetsStand }
{}
