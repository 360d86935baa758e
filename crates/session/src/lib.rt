// The editing session: open, enter, strike, amend, undo, redo, verdict. log.rt reads a log back into a sheet; kept.rt decides
// refusal 17; value.rt has the five changes by value, lent.rt those that alter the session itself; opening.rt takes the number
// of agents from a store, judging.rt hands the sheet to the judge.
// It stands on `line` for zeros, on `domain` for a store, on `index` for its counts and on `judge`; `desk` stands on it.
#![tactic(auto)]

mod judging;
mod kept;
mod lent;
mod log;
mod opening;
mod shown;
mod value;

pub use judging::{verdict, verdict_counted};
pub use kept::is_open;
pub use lent::{amend, enter, redo, strike, undo};
pub use opening::{Change, open};
pub use shown::sessions;
pub use value::{amended, entered, redone, stricken, undone};
