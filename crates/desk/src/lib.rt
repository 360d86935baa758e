// The library's calls for C and Rust, by numbers and slices: include/waroth.h says what each takes and leaves.
// Each answers by one number of 64 bits, whose meaning is a definition in specs/; the calls themselves stand in the crates below,
// `line`, `domain`, `supplement`, `sheet`, `judge`, `session` and `answer`, and `index` has a store's counts. No crate stands on it.
#![tactic(auto)]

mod domains;
mod edits;
mod judgements;
mod parts;
mod program;
mod sheets;
mod supplements;

pub use domains::{waroth_counts, waroth_frame, waroth_read_domain, waroth_write_domain};
pub use edits::{waroth_amend, waroth_enter, waroth_open, waroth_redo, waroth_strike, waroth_undo};
pub use judgements::{waroth_judge, waroth_judge_under, waroth_verdict};
pub use program::{waroth_answer, waroth_low_water, waroth_report};
pub use sheets::{waroth_read_sheet, waroth_write_sheet};
pub use supplements::{waroth_law, waroth_lay, waroth_read_supplement};
