// A frame to its line.
ghost use Rattle.std.specs.Prelude.{◌≡◌, ◌≤◌, ◌*◌, length};
ghost use Rattle.bmap.specs.Line.{hex};
ghost use Rattle.bmap.specs.Buffer.{over};
ghost use Rattle.line.specs.Write.{answer_of, line_written};

use crate::digit::{LINE_FEED, digit_for};
use bmap::{PAYLOAD, Refusal};

// The line of a frame to the front of `out`, and its size: refused where its payload is too long or the line has no room.
pub fn put_line(kind: u8, payload: &[u8], out: &mut [u8]) -> Result<usize, Refusal>
    ensures answer { answer_of result ≡ (line_written kind payload.now out.old).answer }
    ensures buffer { out.new ≡ (line_written kind payload.now out.old).buffer }
{
    if payload.len() > PAYLOAD {
        return Err(Refusal::BadCount);
    }
    // Two digits a byte, kind and count among them, and the LF.
    let size = 2 * payload.len() + 5;
    if out.len() < size {
        return Err(Refusal::NoRoom);
    }
    let head = [kind, payload.len() as u8];
    put_bytes(&head, out);
    put_bytes(payload, &mut out[4..]);
    out[size - 1] = LINE_FEED;
    Ok(size)
}

// The digits of bytes, to the front of `out`.
pub(crate) fn put_bytes(bytes: &[u8], out: &mut [u8])
    requires { 2 * length bytes.now ≤ length out.old }
    ensures { out.new ≡ over (hex bytes.now) out.old }
{
    for i in 0..bytes.len() {
        let b = bytes[i];
        out[2 * i] = digit_for(b / 16);
        out[2 * i + 1] = digit_for(b % 16);
    }
}
