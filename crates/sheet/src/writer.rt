// The steps of a sheet, to its lines.
ghost use Rattle.std.specs.Prelude.{◌≡◌, ◌≤◌};
ghost use Rattle.bmap.specs.Limits.{most_agents};
ghost use Rattle.bmap.specs.Line.{line_size};
ghost use Rattle.bmap.specs.Sheet.{write_sheet};
ghost use Rattle.line.specs.Write.{answer_of};

use crate::agents_known;
use bmap::{Kind, Refusal, Sheet};
use line::put_line;

// The lines of a sheet to the front of a text, and their size: the length of the text is tested before anything is written.
pub fn write(sheet: &[u8], agents: usize, text: &mut [u8]) -> Result<usize, Refusal>
    ensures answer { answer_of result ≡ (write_sheet sheet.now agents text.old).answer }
    ensures buffer { text.new ≡ (write_sheet sheet.now agents text.old).buffer }
{
    if !agents_known(agents) {
        return Err(Refusal::BadPayload);
    }
    if sheet.len() % agents != 0 {
        return Err(Refusal::NotWhole);
    }
    let steps = sheet.len() / agents;
    if steps > Sheet::STEPS {
        return Err(Refusal::TooLong);
    }
    let total = steps * line_size(agents);
    if text.len() < total {
        return Err(Refusal::NoRoom);
    }
    let mut used = 0;
    for names in sheet.chunks_exact(agents) {
        used += put_line(Kind::STEP, names, &mut text[used..])?;
    }
    Ok(total)
}

// The characters of a step's line: two digits a name, kind and count among them, and the LF.
pub(crate) fn line_size(agents: usize) -> usize
    requires { agents ≤ most_agents }
    ensures { result ≡ line_size agents }
{
    2 * agents + 5
}
