// Acceptance of a supplement's store for a domain, and where its replacements stand, in one pass.
ghost use Rattle.std.specs.Prelude.{◌≡◌, ℕ, ◌+◌, ◌<◌, ◌≤◌, List, length, ok_or};
ghost use Rattle.bmap.specs.Refusal.{refused};
ghost use Rattle.bmap.specs.Supplement.{Replacement, replacement_in, supplement_in};
ghost use Rattle.index.specs.Index.{domain_of, Sound};
ghost use Rattle.supplement.specs.Check.{over_of, frame_there, noted, noted_at};
ghost use Rattle.supplement.specs.Under.{no_index, under_of, under_in, under_alone};

use crate::checks::check_replacement;
use bmap::{Counts, Refusal};
use index::{Entry, Fluent, Index, Knowledge};
use line::{frame_at, is_zero_from};

// What a judge reads of a domain and a supplement accepted for it.
#[derive(Clone, Copy, Debug, PartialEq, Eq)]
pub struct Under {
    // A refusal gives the domain's index all the same: `index_of` and `read_under` promise it, so this is no Option.
    pub ok: bool,
    pub index: Index,
    // The place in the supplement of the count of the frame that replaces each law, 0 for none: before a count stands a kind.
    pub over: [u16; Counts::LAWS],
}

impl Under {
    // The frame of so many bytes at a place of the supplement, after those before it: checked, and its place noted.
    pub(crate) fn take(
        &mut self,
        store: &[u8],
        supplement: &[u8],
        at: usize,
        size: usize,
    ) -> Result<(), Refusal>
        requires sound { Sound store.now self.old.index }
        requires whole { 2 ≤ size }
        requires within { at + size ≤ length supplement.now }
        requires low { at < 65_535 }
        ensures ok { self.new.ok ≡ self.old.ok }
        ensures index { self.new.index ≡ self.old.index }
        ensures over { (earlier : List Replacement) → self.old.over ≡ over_of earlier
            → noted result self.new.over ≡ noted_at self.old.over at (replacement_in (domain_of store.now self.old.index) earlier (frame_there supplement.now at size)) }
    {
        let kind = supplement[at];
        let count = at + 1;
        let p = &supplement[at + 2..at + size];
        let n = check_replacement(store, &self.index, &self.over, kind, p)?;
        self.over[n] = count as u16;
        Ok(())
    }
}

// The index where no domain is found.
const NO_INDEX: Index = Index {
    counts: Counts {
        agents: 0,
        fluents: 0,
        knowledge: 0,
        entries: 0,
        laws: 0,
    },
    fluents: [Fluent {
        lowest: 0,
        highest: 0,
        start: 0,
        limit: 0,
    }; Counts::FLUENTS],
    knowledge: [Knowledge {
        fluent: 0,
        knowers: 0,
    }; Counts::KNOWLEDGE],
    entries: [Entry { name: 0, crew: 0 }; Counts::ENTRIES],
    laws: [0; Counts::LAWS],
};

// Whether the one store is an accepted domain and the other a supplement accepted for it, each followed by zeros.
pub fn index_of(store: &[u8], supplement: &[u8]) -> Under
    ensures { result ≡ under_in store.now supplement.now }
{
    match domain::index_of(store) {
        Some(index) => places_of(store, index, supplement),
        None => found_alone(None),
    }
}

// What was found of a domain, where nothing stands in for a law: Ok is the index of one that is accepted, Err of one that is not.
pub fn alone(found: Result<Index, Index>) -> Under
    ensures { result ≡ under_alone found }
{
    match found {
        Ok(index) => found_alone(Some(index)),
        Err(index) => refused(index),
    }
}

// The same by what is found in a store.
pub(crate) fn found_alone(found: Option<Index>) -> Under
    ensures { result ≡ under_alone (ok_or found no_index) }
{
    match found {
        Some(index) => Under {
            ok: true,
            index,
            over: [0; Counts::LAWS],
        },
        None => refused(NO_INDEX),
    }
}

pub(crate) fn refused(index: Index) -> Under
    ensures { (n : ℕ) → result ≡ under_of index (refused n) }
{
    Under {
        ok: false,
        index,
        over: [0; Counts::LAWS],
    }
}

// By the domain's index: one look at each frame.
#[tactic(auto, using(domain::proofs::Held::frame_bounds))]
pub(crate) fn places_of(store: &[u8], index: Index, supplement: &[u8]) -> Under
    requires { Sound store.now index }
    ensures { result ≡ under_of index (supplement_in (domain_of store.now index) supplement.now) }
{
    let mut under = found_alone(Some(index));
    let mut at = 0;
    while let Some(size) = frame_at(supplement, at) {
        if let Err(_) = under.take(store, supplement, at, size) {
            return refused(index);
        }
        at += size;
    }
    if is_zero_from(supplement, at) {
        under
    } else {
        refused(index)
    }
}
