// A line whose kind and count are known before it is read: its payload goes straight to its place.
ghost use Rattle.std.specs.Prelude.{◌*◌, ◌<◌, ◌≤◌, MatchOption, length};
ghost use Rattle.line.specs.Read.{PayloadRead};
ghost use Rattle.line.specs.Within.{PayloadIf, Spells, SpeltIf, SpeltTo};

use crate::digit::{feed_at, pair};
use crate::whole::{BLOCK, all_digits, decode_block};
use crate::write::put_bytes;
use bmap::PAYLOAD;

// How many bytes are decoded at a time where no block is left.
const FEW: usize = 4;

// Whether the first line of a text is a frame's of this kind with as many payload bytes as `out` has; they then stand there, and
// zeros otherwise. What another line is, `read_line` tells.
pub fn read_payload(text: &[u8], kind: u8, out: &mut [u8]) -> bool
    ensures { PayloadRead kind text.now out.old out.new result }
{
    if spells_payload(text, kind, out) {
        return true;
    }
    out.fill(0);
    false
}

// The same, but for the zeros: of another line some bytes may stand there.
fn spells_payload(text: &[u8], kind: u8, out: &mut [u8]) -> bool
    ensures { PayloadIf kind text.now out.new result }
{
    let count = out.len();
    if count > PAYLOAD {
        return false;
    }
    if !feed_at(text, 2 * count + 4) {
        return false;
    }
    let mut head = [0; 4];
    put_bytes(&[kind, count as u8], &mut head);
    if !text.starts_with(&head) {
        return false;
    }
    spell_all(&text[4..], out)
}

// Whether digits of as many bytes as `out` has stand at the front of a text; the bytes then stand there. Block after block, a few
// at a time where no block is left, and the last ones one by one.
fn spell_all(text: &[u8], out: &mut [u8]) -> bool
    requires { 2 * length out.old ≤ length text.now }
    ensures { SpeltIf (length out.old) text.now out.new result }
{
    let Some(blocks) = spell_blocks::<BLOCK>(text, out) else {
        return false;
    };
    let Some(few) = spell_blocks::<FEW>(&text[2 * blocks..], &mut out[blocks..]) else {
        return false;
    };
    let at = blocks + few;
    spell_each(&text[2 * at..], &mut out[at..])
}

// The same of N bytes after N bytes, each tested before they are written, as long as so many are left: the place where fewer are.
fn spell_blocks<const N: usize>(text: &[u8], out: &mut [u8]) -> Option<usize>
    requires size { 0 < N }
    requires room { 2 * length out.old ≤ length text.now }
    ensures { MatchOption result (Spells text.now (length out.old) → ⊥) (SpeltTo text.now out.new) }
{
    let mut at = 0;
    // By place: of a buffer that is written through `chunks_exact_mut` only its length is known.
    while N <= out.len() - at {
        let rest = &text[2 * at..];
        if !all_digits(&rest[..2 * N]) {
            return None;
        }
        decode_block::<N>(rest, &mut out[at..]);
        at += N;
    }
    Some(at)
}

// Byte by byte.
fn spell_each(text: &[u8], out: &mut [u8]) -> bool
    requires { 2 * length out.old ≤ length text.now }
    ensures { SpeltIf (length out.old) text.now out.new result }
{
    for n in 0..out.len() {
        let Some(byte) = pair(text[2 * n], text[2 * n + 1]) else {
            return false;
        };
        out[n] = byte;
    }
    true
}
