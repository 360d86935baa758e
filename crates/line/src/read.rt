// The line at the front of a text, to the bytes of its frame.
ghost use Rattle.std.specs.Prelude.{◌≡◌, ◌≤◌, length};
ghost use Rattle.std.proofs.Math.Option.{some};
ghost use Rattle.bmap.specs.Buffer.{over};
ghost use Rattle.bmap.specs.Line.{lines_of};
ghost use Rattle.bmap.specs.Limits.{frame_size};
ghost use Rattle.line.specs.Read.{said, first_of, line_read, spelt, bytes_read};
ghost use Rattle.line.specs.Within.{Begins, frame_of};
ghost use Rattle.line.specs.Write.{answer_of};

use crate::digit::{feed_at, pair};
use crate::whole::{decode, whole_line};
use bmap::{FRAME, Refusal};

// A frame of so many bytes, from a line of so many characters, its LF among them.
#[derive(Clone, Copy, Debug, PartialEq, Eq)]
pub struct FirstFrame {
    pub bytes: usize,
    pub characters: usize,
}

// The first line of a text; the bytes that it spells, as many as a frame has at most, stand at the front of `out`, which has
// room for them or is refused. The lines after it are those of the text after so many characters; none is left of an empty text.
pub fn read_line(text: &[u8], out: &mut [u8]) -> Result<Option<FirstFrame>, Refusal>
    ensures answer { said result ≡ line_read text.now out.old }
    ensures buffer { out.new ≡ bytes_read text.now out.old }
{
    if out.len() < FRAME {
        return Err(Refusal::NoRoom);
    }
    if text.is_empty() {
        return Ok(None);
    }
    // Almost every line is whole and right; what is wrong with another is found the long way.
    if let Some(bytes) = whole_line(text) {
        decode(text, &mut out[..bytes]);
        let characters = 2 * bytes + 1;
        return Ok(Some(FirstFrame { bytes, characters }));
    }
    let n = spell(text, &mut out[..FRAME]);
    Ok(Some(line_of(text, n, out[1])?))
}

// The first line of a text that begins with n pairs of digits: as many as stand there, or as a frame has bytes at most. The
// second byte that they spell is its count.
fn line_of(text: &[u8], n: usize, count: u8) -> Result<FirstFrame, Refusal>
    requires { Begins text.now n count }
    ensures { some (answer_of result) ≡ first_of (lines_of text.now) }
{
    let end = 2 * n;
    if feed_at(text, end) {
        return frame_of(n, count);
    }
    if n < FRAME {
        return Err(Refusal::BadLine);
    }
    let more = pairs(&text[end..]);
    if feed_at(text, end + 2 * more) {
        return Err(Refusal::BadCount);
    }
    Err(Refusal::BadLine)
}

// What n bytes before a LF come to, of which the second says how many follow it.
fn frame_of(n: usize, count: u8) -> Result<FirstFrame, Refusal>
    requires { n ≤ frame_size }
    ensures { result ≡ frame_of n count }
{
    if n == 0 {
        return Err(Refusal::BadLine);
    }
    // n is no more than a frame has, so a count that fits is no more than a payload has.
    if count as usize + 2 != n {
        return Err(Refusal::BadCount);
    }
    Ok(FirstFrame {
        bytes: n,
        characters: 2 * n + 1,
    })
}

// How many pairs of digits stand at the front.
fn pairs(text: &[u8]) -> usize
    ensures { result ≡ length (spelt (length text.now) text.now) }
{
    let most = text.len() / 2;
    for n in 0..most {
        if pair(text[2 * n], text[2 * n + 1]).is_none() {
            return n;
        }
    }
    most
}

// The bytes that the pairs of digits at the front of a text spell, to the front of `out`, as many as it has room for.
fn spell(text: &[u8], out: &mut [u8]) -> usize
    ensures count { result ≡ length (spelt (length out.old) text.now) }
    ensures buffer { out.new ≡ over (spelt (length out.old) text.now) out.old }
{
    let most = out.len().min(text.len() / 2);
    for n in 0..most {
        let Some(byte) = pair(text[2 * n], text[2 * n + 1]) else {
            return n;
        };
        out[n] = byte;
    }
    most
}
