// The laws of a judgement, held where every check reads them: the domain's frame gives a law's kind and `supplement::payload_at`
// the payload in force, each once, and they stand from then on at a place of their own in an array, which a call takes in a
// register where a slice goes through memory. Each has room for a whole frame, law l at l times that: its kind, a byte that
// nothing reads where a frame has its count, and its payload.
ghost use Rattle.std.specs.Prelude.{◌≡◌, ◌+◌, ◌≤◌, length, set};
ghost use Rattle.std.proofs.Math.Seq.{paste};
ghost use Rattle.bmap.specs.Limits.{most_laws};
ghost use Rattle.law.specs.Evaluate.{held_size};
ghost use Rattle.judge.specs.Told.{Held};

use bmap::{Counts, FRAME, PAYLOAD};
use index::{byte_at, law_at, part};
use law::HELD;
use supplement::payload_at;

fn hold(held: &mut [u8; HELD], at: usize, kind: u8, payload: &[u8])
    requires { at + 2 + length payload.now ≤ held_size }
    ensures { held.new ≡ paste (set held.old at kind) (at + 2) payload.now (length payload.now) }
{
    held[at] = kind;
    let from = at + 2;
    held[from..from + payload.len()].copy_from_slice(payload);
}

// `law_at` and `payload_at` take the whole tables, so both come whole, with the number of laws beside them.
pub(crate) fn hold_laws<'a>(
    held: &mut [u8; HELD],
    store: &'a [u8],
    laws: &[u16; Counts::LAWS],
    supplement: &'a [u8],
    over: &[u16; Counts::LAWS],
    n: usize,
)
    requires { n ≤ most_laws }
    ensures { Held store.now laws.now supplement.now over.now n held.new }
{
    for i in 0..n {
        let kind = byte_at(law_at(store, laws, i), 0);
        let payload = payload_at(store, laws, supplement, over, i);
        // An accepted law has no more bytes than this.
        hold(held, FRAME * i, kind, part(payload, 0, PAYLOAD));
    }
}
