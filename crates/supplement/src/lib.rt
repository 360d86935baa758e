// Supplements: the laws that stand in for a domain's. The check of one frame, the reader of lines into a store, the acceptance of a
// store with the places of its replacements, the law in force, which everything that reads a law asks for here, and one supplement
// laid over another.
// It stands on `domain` for a store's index and for the check of a law, on `line` for lines and frames and on `index` for the parts
// of a store; `judge`, `answer` and `desk` stand on it.
#![tactic(auto)]

mod checks;
mod force;
mod laying;
mod reader;
mod shown;
mod under;

pub use force::{LawPlace, in_force, payload_at, place_in_force};
pub use laying::lay;
pub use reader::{ReadUnder, read, read_under};
pub use shown::{layings, replacements};
pub use under::{Under, alone, index_of};
