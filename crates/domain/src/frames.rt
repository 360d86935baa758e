// The frame reader: a struct that holds the store and a place, over functions on slice and place.
ghost use Rattle.std.specs.Prelude.{◌≡◌};
ghost use Rattle.index.specs.Place.{StandsAt};
ghost use Rattle.domain.specs.Frames.{part_at, place_after, StartsOver, HandsOut};

use crate::found::is_accepted;
use bmap::Refusal;
use index::part;
use line::frame_at;

// "stands over the store and hands out frame after frame".
#[derive(Clone, Copy)]
pub struct FrameReader<'a> {
    pub store: &'a [u8],
    pub at: usize,
    // The refusal's number, 0 where it stands over an accepted domain; no Option, since `next` keeps whatever number it is given.
    pub refusal: u8,
}

// "It starts only over an accepted domain (else 15, and it stands over no bytes)."
pub fn start<'a>(store: &'a [u8]) -> FrameReader<'a>
    ensures { StartsOver store.entry result }
{
    if is_accepted(store) {
        FrameReader {
            store,
            at: 0,
            refusal: 0,
        }
    } else {
        FrameReader {
            store: &store[..0],
            at: 0,
            refusal: Refusal::NotDomain as u8,
        }
    }
}

// The stored bytes of the next frame themselves; at the end an empty part, and the reader stays, every time.
pub fn next<'a>(r: &mut FrameReader<'a>) -> &'a [u8]
    ensures { HandsOut r.old r.new result }
{
    let store = r.store;
    let at = r.at;
    r.at = next_at(store, at);
    frame_part(store, at)
}

// The place after the frame at a place: the place itself where there is none.
#[tactic(auto, using(crate::proofs::Held::frame_bounds))]
fn next_at(store: &[u8], at: usize) -> usize
    ensures { result ≡ place_after store.now at }
{
    match frame_at(store, at) {
        Some(size) => at + size,
        None => at,
    }
}

// The bytes of the frame at a place: none where there is no frame.
fn frame_part<'a>(store: &'a [u8], at: usize) -> &'a [u8]
    ensures { StandsAt store.entry at (part_at store.now at) result }
{
    part(store, at, frame_at(store, at).unwrap_or(0))
}
