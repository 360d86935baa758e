// The domain writer: a store to hex lines.
ghost use Rattle.std.specs.Prelude.{◌≡◌, ◌≤◌, leb, length};
ghost use Rattle.bmap.specs.Buffer.{over};
ghost use Rattle.bmap.specs.Store.{write_domain};
ghost use Rattle.line.specs.Write.{answer_of};
ghost use Rattle.domain.specs.Write.{lines_in};

use crate::found::is_accepted;
use bmap::Refusal;
use line::{frame_at, put_line};

// "Domain writer: 15, 10." Where it refuses it touches nothing, and nothing after the bytes that it writes.
pub fn write(store: &[u8], text: &mut [u8]) -> Result<usize, Refusal>
    ensures answer { answer_of result ≡ (write_domain store.now text.old).answer }
    ensures buffer { text.new ≡ (write_domain store.now text.old).buffer }
{
    if !is_accepted(store) {
        return Err(Refusal::NotDomain);
    }
    if !lines_fit(store, text.len()) {
        return Err(Refusal::NoRoom);
    }
    Ok(write_lines(store, text))
}

// Whether the lines of a store's frames fit so many characters.
#[tactic(auto, using(crate::proofs::Held::frame_bounds))]
fn lines_fit(store: &[u8], room: usize) -> bool
    ensures { result ≡ leb (length (lines_in store.now)) room }
{
    let mut at = 0;
    let mut left = room;
    while let Some(size) = frame_at(store, at) {
        let line = 2 * size + 1;
        if left < line {
            return false;
        }
        left -= line;
        at += size;
    }
    true
}

// The lines of a store's frames, to the front of a text that has room for them: so many characters.
#[tactic(auto, using(crate::proofs::Held::frame_bounds))]
fn write_lines(store: &[u8], text: &mut [u8]) -> usize
    requires { length (lines_in store.now) ≤ length text.old }
    ensures { (result ≡ length (lines_in store.now)) × (text.new ≡ over (lines_in store.now) text.old) }
{
    let mut at = 0;
    let mut used = 0;
    while let Some(size) = frame_at(store, at) {
        let next = at + size;
        let _ = put_line(store[at], &store[at + 2..next], &mut text[used..]);
        at = next;
        used += 2 * size + 1;
    }
    used
}
