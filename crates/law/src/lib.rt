// Expressions and constraints where they stand in bytes, as laws hold them. `table` says what each code opens and how many
// operands follow; by it `checks` accepts a tree that names only what it `may`, and finds its end, `long` does the same of what
// is longer than a frame, `names` asks which fluents a tree names, and `eval` says what it gives at a position of a history.
// Expressions hold constraints and constraints expressions, so the functions of each call each other, with less depth left. It
// stands on `number`; `domain` stands on it for its checks, `judge` for what laws give.
#![tactic(auto)]

mod checks;
mod eval;
mod long;
mod mask;
mod may;
mod names;
mod packed;
mod table;

pub use checks::{check_constraint, check_expression};
pub use eval::{HELD, HISTORY, ROW, constraint_at, expression_at};
pub use names::names_only;
