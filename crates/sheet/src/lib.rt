// Sheets as hex lines: the reader and the writer. Both stand on `line`; `answer` and `desk` stand on them.
#![tactic(auto)]

mod reader;
mod shown;
mod writer;

ghost use Rattle.std.specs.Prelude.{◌≡◌};
ghost use Rattle.sheet.specs.Step.{agents_allowed};

use bmap::Counts;
pub use reader::read;
pub use shown::texts;
pub use writer::write;

// May so many agents have a sheet.
fn agents_known(agents: usize) -> bool
    ensures { result ≡ agents_allowed agents }
{
    (1..=Counts::AGENTS).contains(&agents)
}
