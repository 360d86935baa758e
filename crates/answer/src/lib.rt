// The programs' functions, from input bytes to output bytes: the cuts into the texts of a domain, a supplement and sheets, the report's
// figures, and what is printed. It stands on `domain`, `supplement`, `sheet` and `judge`, on `index` for a domain's counts and on
// `theorems` for a law of its proofs; the programs `waroth`, `low_water` and `report` and `desk` stand on it.
#![tactic(auto)]

mod cut;
mod figures;
mod morning;
mod print;
mod program;
mod shown;

pub use morning::report;
pub use program::{OUTPUT, answer, low_water};
pub use shown::programs;
