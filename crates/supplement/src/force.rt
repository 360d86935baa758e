// The law in force: the bytes of its payload where they already stand, in the domain's store or in the supplement's.
ghost use Rattle.std.specs.Prelude.{◌≡◌, ◌-◌, get_or};
ghost use Rattle.bmap.specs.Supplement.{law_in_force};
ghost use Rattle.supplement.specs.Force.{stretch, placed, stretch_of, law_stretch, payload_of, bytes_in, StandsIn, InForce};

use crate::under::index_of;
use bmap::{Counts, Refusal};
use index::{byte_at, part};

// Where a law's payload stands, and how many bytes it has.
#[derive(Debug, Clone, Copy, PartialEq, Eq)]
pub enum LawPlace {
    InDomain { at: usize, size: usize },
    InSupplement { at: usize, size: usize },
}

// "For any law number, the law in force is handed out as the bytes where they already stand, its payload alone, in domain or
// supplement": an empty part where it is refused, which no law's payload is.
pub fn in_force<'a>(store: &'a [u8], supplement: &'a [u8], n: usize) -> &'a [u8]
    ensures { InForce (law_in_force store.now supplement.now n) store.entry supplement.entry result }
{
    match place_in_force(store, supplement, n) {
        Ok(place) => handed_out(store, supplement, place),
        Err(_) => &[],
    }
}

// The same by numbers. "15, before 20".
pub fn place_in_force(store: &[u8], supplement: &[u8], n: usize) -> Result<LawPlace, Refusal>
    ensures { placed result ≡ stretch_of (law_in_force store.now supplement.now n) }
{
    let under = index_of(store, supplement);
    if !under.ok {
        return Err(Refusal::NotDomain);
    }
    if under.index.counts.laws <= n {
        return Err(Refusal::OtherLaw);
    }
    Ok(standing(store, &under.index.laws, supplement, &under.over, n))
}

// The payload of law i, where it stands, by what was found of the two stores: everything that reads a law asks here.
// It takes any two arrays of places: the laws' frames, as an index has them, and what replaces them, as an `Under` has it.
pub fn payload_at<'a>(
    store: &'a [u8],
    laws: &[u16; Counts::LAWS],
    supplement: &'a [u8],
    over: &[u16; Counts::LAWS],
    i: usize,
) -> &'a [u8]
    ensures { StandsIn (law_stretch store.now laws.now supplement.now over.now i).stands store.entry supplement.entry
        (payload_of store.now laws.now supplement.now over.now i) result }
{
    handed_out(
        store,
        supplement,
        standing(store, laws, supplement, over, i),
    )
}

// A place in a list of them, 0 past its end.
fn place_in(places: &[u16], i: usize) -> u16
    ensures { result ≡ get_or places.now i 0 }
{
    places.get(i).copied().unwrap_or(0)
}

fn standing(
    store: &[u8],
    laws: &[u16; Counts::LAWS],
    supplement: &[u8],
    over: &[u16; Counts::LAWS],
    i: usize,
) -> LawPlace
    ensures { stretch result ≡ law_stretch store.now laws.now supplement.now over.now i }
{
    let count = place_in(over, i) as usize;
    if count == 0 {
        let frame = place_in(laws, i) as usize;
        let at = frame + 2;
        let size = byte_at(store, frame + 1) as usize;
        return LawPlace::InDomain { at, size };
    }
    let at = count + 3;
    // The law's number and its kind stand before its payload.
    let size = (byte_at(supplement, count) as usize).saturating_sub(2);
    LawPlace::InSupplement { at, size }
}

// One function hands out a law.
fn handed_out<'a>(store: &'a [u8], supplement: &'a [u8], place: LawPlace) -> &'a [u8]
    ensures { StandsIn (stretch place).stands store.entry supplement.entry (bytes_in (stretch place) store.now supplement.now) result }
{
    match place {
        LawPlace::InDomain { at, size } => part(store, at, size),
        LawPlace::InSupplement { at, size } => part(supplement, at, size),
    }
}
