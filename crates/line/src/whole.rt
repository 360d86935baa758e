// A line that is whole and right by its own count: seen at one look, and decoded many bytes at a time. Nothing is written before
// all of it is known to be right.
ghost use Rattle.std.specs.Prelude.{◌≡◌, ℕ, ◌≤◌, MatchOption, length};
ghost use Rattle.bmap.specs.Plain.{all};
ghost use Rattle.bmap.specs.Buffer.{over};
ghost use Rattle.line.specs.Read.{spelt};
ghost use Rattle.line.specs.Within.{is_digit, Spells, Whole};

use crate::digit::{byte_of, feed_at, is_digit, pair};
use bmap::PAYLOAD;

// How many bytes are decoded at a time.
pub(crate) const BLOCK: usize = 16;

// How many bytes the first line of a text spells, if so many digits as its count says stand before a LF.
pub(crate) fn whole_line(text: &[u8]) -> Option<usize>
    ensures { MatchOption result ((n : ℕ) → Whole text.now n → ⊥) (Whole text.now) }
{
    if text.len() < 4 {
        return None;
    }
    let count = pair(text[2], text[3])? as usize;
    if count > PAYLOAD {
        return None;
    }
    let n = count + 2;
    let end = 2 * n;
    if feed_at(text, end) {
        if all_digits(&text[..end]) {
            return Some(n);
        }
    }
    None
}

// Whether all characters are digits. The loop has no exit, so that it asks many at a time.
pub(crate) fn all_digits(text: &[u8]) -> bool
    ensures { result ≡ all is_digit text.now }
{
    let mut so_far = true;
    for &c in text {
        so_far &= is_digit(c);
    }
    so_far
}

// The bytes that the digits at the front of a text spell, as many as `out` has room for: block after block, and the rest one by
// one.
pub(crate) fn decode(text: &[u8], out: &mut [u8])
    requires { Spells text.now (length out.old) }
    ensures { out.new ≡ spelt (length out.old) text.now }
{
    let mut at = 0;
    // By place: of a buffer that is written through `chunks_exact_mut` only its length is known.
    while at + BLOCK <= out.len() {
        decode_block::<BLOCK>(&text[2 * at..], &mut out[at..]);
        at += BLOCK;
    }
    decode_each(&text[2 * at..], &mut out[at..]);
}

// N of them by way of an array of their own, which no store to `out` can change: so the compiler takes them as one.
#[inline(always)]
pub(crate) fn decode_block<const N: usize>(text: &[u8], out: &mut [u8])
    requires spells { Spells text.now N }
    requires room { N ≤ length out.old }
    ensures { out.new ≡ over (spelt N text.now) out.old }
{
    let mut bytes = [0; N];
    decode_each(text, &mut bytes);
    out[..N].copy_from_slice(&bytes);
}

// Byte by byte.
fn decode_each(text: &[u8], out: &mut [u8])
    requires { Spells text.now (length out.old) }
    ensures { out.new ≡ spelt (length out.old) text.now }
{
    for n in 0..out.len() {
        out[n] = byte_of(text[2 * n], text[2 * n + 1]);
    }
}
