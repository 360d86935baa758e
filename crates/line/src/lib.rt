// Hex lines and frames: the line at the front of a text to its frame's bytes, a frame's line, the frame at a place of a store.
// `domain`, `supplement` and `sheet` stand on it for their readers and writers, `session` for zeros, `desk` for the frame at a
// place, and `answer` for a law of its proofs.
#![tactic(auto)]

mod buffer;
mod digit;
mod frame;
mod payload;
mod read;
mod whole;
mod write;

pub use buffer::{is_zero_from, zero_from};
pub use frame::frame_at;
pub use payload::read_payload;
pub use read::{FirstFrame, read_line};
pub use write::put_line;
