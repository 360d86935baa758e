// Sheets, read and written.
ghost use Rattle.std.specs.Prelude.{◌≡◌};
ghost use Rattle.bmap.specs.Sheet.{read_sheet, write_sheet};
ghost use Rattle.desk.specs.Numbers.{read_number, written_number};

use crate::parts::{read, written};

#[unsafe(no_mangle)]
pub extern "C" fn waroth_read_sheet(text: &[u8], agents: usize, buffer: &mut [u8]) -> u64
    ensures { (result ≡ read_number (read_sheet agents text.now buffer.old).answer) × (buffer.new ≡ (read_sheet agents text.now buffer.old).buffer) }
{
    read(sheet::read(text, agents, buffer))
}

#[unsafe(no_mangle)]
pub extern "C" fn waroth_write_sheet(sheet: &[u8], agents: usize, text: &mut [u8]) -> u64
    ensures { (result ≡ written_number (write_sheet sheet.now agents text.old).answer) × (text.new ≡ (write_sheet sheet.now agents text.old).buffer) }
{
    written(sheet::write(sheet, agents, text))
}
