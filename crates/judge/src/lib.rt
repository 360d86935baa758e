// The judge: the six checks of a step in the paper's order, the run over the steps, the goals, and the states that were reached.
// It reads a store through `index` (made by `domain`), the laws in force through `supplement`, their bytes through `law`, values as
// `number` has them; `session`, `answer`, `desk` and `river_cases` stand on it.
#![tactic(auto)]

mod acting;
mod checks;
mod effects;
mod held;
mod judgement;
mod knowledge;
mod landing;
mod reading;
mod states;
mod steps;
mod verdict;

pub use judgement::{
    judge, judge_counted, judge_for, judge_found, judge_under, judge_under_counted,
};
pub use verdict::{Fault, Judged, Verdict};
