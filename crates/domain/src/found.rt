// Acceptance and index of a store, in one pass.
ghost use Rattle.std.specs.Prelude.{◌≡◌};
ghost use Rattle.bmap.specs.Refusal.{is_got};
ghost use Rattle.bmap.specs.Store.{domain_in};
ghost use Rattle.domain.specs.Found.{found_in};

use crate::progress::Progress;
use index::Index;
use line::{frame_at, is_zero_from};

// The index of a store that is an accepted domain followed by zeros: one look at each frame.
#[tactic(auto, using(crate::proofs::Held::frame_bounds, crate::proofs::Held::held_place))]
pub fn index_of(store: &[u8]) -> Option<Index>
    ensures { result ≡ found_in store.now }
{
    let mut progress = Progress::new();
    let mut at = 0;
    while let Some(size) = frame_at(store, at) {
        let next = at + size;
        progress.take(at, store[at], &store[at + 2..next]).ok()?;
        at = next;
    }
    (is_zero_from(store, at) && progress.is_complete()).then_some(progress.index)
}

// Whether a store is an accepted domain followed by zeros.
pub fn is_accepted(store: &[u8]) -> bool
    ensures { result ≡ is_got (domain_in store.now) }
{
    index_of(store).is_some()
}
