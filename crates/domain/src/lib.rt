// Domains: the check of one frame, the reader of lines into a store, the acceptance of a store with its index, the writer and the
// frame reader. It stands on `law` for the trees in a payload, on `line` for lines and frames, on `number` for values and on
// `index` for what a judge reads; `supplement`, `session`, `answer`, `desk` and `frame_cases` stand on it.
#![tactic(auto)]

mod found;
mod frames;
mod laws;
mod payload;
mod progress;
mod reader;
mod shown;
mod writer;

pub use found::{index_of, is_accepted};
pub use frames::{FrameReader, next, start};
pub use laws::law_fits;
pub use reader::{ReadFound, read, read_found};
pub use shown::texts;
pub use writer::write;
