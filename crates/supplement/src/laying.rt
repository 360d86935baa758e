// One supplement laid over another, both of one domain.
ghost use Rattle.std.specs.Prelude.{◌≡◌, ◌≤◌, length};
ghost use Rattle.bmap.specs.Buffer.{over};
ghost use Rattle.bmap.specs.Laying.{lay_supplements};
ghost use Rattle.line.specs.Write.{answer_of};
ghost use Rattle.supplement.specs.Laid.{frame_with, winner, frames_laid};

use crate::under::{index_of, places_of};
use bmap::{Counts, Refusal, SUPPLEMENT};
use index::{byte_at, part};
use line::zero_from;

// "keeps each law number of either, the upper one winning; the result is ordered by law number, zeros after, its bytes used
// returned"; "Refusals: 10 for a result buffer under 16,000 bytes, then 15 for the domain or for either supplement store; both
// leave the result buffer untouched".
pub fn lay(store: &[u8], lower: &[u8], upper: &[u8], res: &mut [u8]) -> Result<usize, Refusal>
    ensures answer { answer_of result ≡ (lay_supplements store.now lower.now upper.now res.old).answer }
    ensures buffer { res.new ≡ (lay_supplements store.now lower.now upper.now res.old).buffer }
{
    if res.len() < SUPPLEMENT {
        return Err(Refusal::NoRoom);
    }
    let below = index_of(store, lower);
    if !below.ok {
        return Err(Refusal::NotDomain);
    }
    let above = places_of(store, below.index, upper);
    if !above.ok {
        return Err(Refusal::NotDomain);
    }
    let used = put_frames(lower, &below.over, upper, &above.over, res);
    zero_from(res, used);
    Ok(used)
}

// Law number after law number, the frame that wins: so many bytes at the front of the result, which has room for them.
// Each supplement comes with its places; no function but this one takes both pairs, so that they have no struct.
fn put_frames(
    lower: &[u8],
    low: &[u16; Counts::LAWS],
    upper: &[u8],
    high: &[u16; Counts::LAWS],
    res: &mut [u8],
) -> usize
    requires { length (frames_laid lower.now low.now upper.now high.now) ≤ length res.old }
    ensures { (result ≡ length (frames_laid lower.now low.now upper.now high.now)) × (res.new ≡ over (frames_laid lower.now low.now upper.now high.now) res.old) }
{
    let mut used: usize = 0;
    for n in 0..Counts::LAWS {
        used += put_winner(lower, low[n], upper, high[n], &mut res[used..]);
    }
    used
}

// The upper one's frame, or else the lower one's, by the places of their counts.
fn put_winner(lower: &[u8], low: u16, upper: &[u8], high: u16, out: &mut [u8]) -> usize
    requires { length (winner lower.now low upper.now high) ≤ length out.old }
    ensures { (result ≡ length (winner lower.now low upper.now high)) × (out.new ≡ over (winner lower.now low upper.now high) out.old) }
{
    if high == 0 {
        return put_frame(lower, low as usize, out);
    }
    put_frame(upper, high as usize, out)
}

// The frame whose count stands at a place, kind and count with it; nothing for place 0.
fn put_frame(supplement: &[u8], count: usize, out: &mut [u8]) -> usize
    requires { length (frame_with supplement.now count) ≤ length out.old }
    ensures { (result ≡ length (frame_with supplement.now count)) × (out.new ≡ over (frame_with supplement.now count) out.old) }
{
    if count == 0 {
        return 0;
    }
    let size = byte_at(supplement, count) as usize + 2;
    let frame = part(supplement, count - 1, size);
    let n = frame.len();
    out[..n].copy_from_slice(frame);
    n
}
