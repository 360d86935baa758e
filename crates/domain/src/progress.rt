// What the frames of a domain come to, one after the other: the check of one more, and what it adds.
ghost use Rattle.std.specs.Prelude.{[], ◌≡◌, ◌≤◌, ◌<◌, true, IfOk};
ghost use Rattle.bmap.specs.Accept.{nothing, in_order, room};
ghost use Rattle.bmap.specs.Line.{executable_kind};
ghost use Rattle.bmap.specs.Payload.{byte};
ghost use Rattle.bmap.specs.Limits.{most_entries};
ghost use Rattle.domain.specs.Check.{refusal_of, refused_in};
ghost use Rattle.domain.specs.Progress.{progress_of, checked_in, noted, complete_in};

use crate::payload::{entry_in, fluent_in, knowledge_in, payload_fits};
use bmap::{Counts, Kind, Refusal};
use index::{Entry, Fluent, Index, Knowledge, byte_at};

// The kind of the latest frame, the index of all, and which entries have an executability law.
#[derive(Clone, Copy)]
pub(crate) struct Progress {
    pub latest: u8,
    pub index: Index,
    pub ready: [bool; Counts::ENTRIES],
}

impl Progress {
    #[tactic(auto, unfolding(bmap::specs::Plain::any, bmap::specs::Plain::numbers, crate::specs::Found::index_with, crate::specs::Progress::progress_of))]
    pub fn new() -> Progress
        ensures { result ≡ progress_of nothing [] }
    {
        Progress {
            latest: 0,
            index: Index {
                counts: Counts {
                    agents: 0,
                    fluents: 0,
                    knowledge: 0,
                    entries: 0,
                    laws: 0,
                },
                fluents: [Fluent {
                    lowest: 0,
                    highest: 0,
                    start: 0,
                    limit: 0,
                }; Counts::FLUENTS],
                knowledge: [Knowledge {
                    fluent: 0,
                    knowers: 0,
                }; Counts::KNOWLEDGE],
                entries: [Entry { name: 0, crew: 0 }; Counts::ENTRIES],
                laws: [0; Counts::LAWS],
            },
            ready: [false; Counts::ENTRIES],
        }
    }

    // One frame more, which stands at a place; none where its check refuses it.
    pub fn take(&mut self, at: usize, kind: u8, p: &[u8]) -> Result<(), Refusal>
        requires few { self.old.index.counts.entries ≤ most_entries }
        requires place { at < 65536 }
        ensures answer { refusal_of result ≡ refused_in (checked_in self.old (record { kind = kind; payload = p.now })) }
        ensures taken { IfOk result (λ x. self.new ≡ noted self.old at (record { kind = kind; payload = p.now })) }
    {
        self.check(kind, p)?;
        self.note(at as u16, kind, p);
        Ok(())
    }

    // "no A1, A2 or A4, or an entry without A5": none of it.
    #[tactic(auto, unfolding(crate::specs::Progress::complete_in))]
    pub fn is_complete(&self) -> bool
        requires { self.now.index.counts.entries ≤ most_entries }
        ensures { result ≡ complete_in self.now }
    {
        let n = self.index.counts;
        n.agents > 0 && n.fluents > 0 && n.entries > 0 && !self.ready[..n.entries].contains(&false)
    }

    // Refusals 3, 5, 4, 6, in this order.
    #[tactic(auto, unfolding(bmap::specs::Accept::checked))]
    fn check(&self, kind: u8, p: &[u8]) -> Result<(), Refusal>
        requires { self.now.index.counts.entries ≤ most_entries }
        ensures { refusal_of result ≡ refused_in (checked_in self.now (record { kind = kind; payload = p.now })) }
    {
        let n = self.index.counts;
        if !in_order(self.latest, kind) {
            return Err(Refusal::BadKind);
        }
        if !room_for(n, kind) {
            return Err(Refusal::TooMany);
        }
        if !payload_fits(n, kind, p) {
            return Err(Refusal::BadPayload);
        }
        if kind == Kind::ENTRY && self.index.entries[..n.entries].contains(&entry_in(p)) {
            return Err(Refusal::Repeated);
        }
        Ok(())
    }

    // What a frame that passed its check adds.
    #[tactic(auto, unfolding(bmap::specs::Accept::in_order, bmap::specs::Accept::room, crate::specs::Progress::noted, crate::specs::Progress::counted))]
    fn note(&mut self, at: u16, kind: u8, p: &[u8])
        requires ordered { in_order self.old.latest kind ≡ true }
        requires room { room self.old.index.counts kind ≡ true }
        requires entry { kind ≡ executable_kind → byte p.now 0 < most_entries }
        ensures { self.new ≡ noted self.old at (record { kind = kind; payload = p.now }) }
    {
        let n = self.index.counts;
        self.latest = kind;
        match kind {
            Kind::AGENTS => {
                self.index.counts.agents = byte_at(p, 0) as usize;
            }
            Kind::FLUENT => {
                self.index.fluents[n.fluents] = fluent_in(p);
                self.index.counts.fluents += 1;
            }
            Kind::KNOWLEDGE => {
                self.index.knowledge[n.knowledge] = knowledge_in(p);
                self.index.counts.knowledge += 1;
            }
            Kind::ENTRY => {
                self.index.entries[n.entries] = entry_in(p);
                self.index.counts.entries += 1;
            }
            _ => {
                self.index.laws[n.laws] = at;
                self.index.counts.laws += 1;
                if kind == Kind::EXECUTABLE {
                    self.ready[byte_at(p, 0) as usize] = true;
                }
            }
        }
    }
}

// "A domain's kinds never decrease from line to line": A1 to A9.
#[tactic(auto, unfolding(bmap::specs::Accept::in_order))]
fn in_order(latest: u8, kind: u8) -> bool
    ensures { result ≡ in_order latest kind }
{
    (Kind::AGENTS..=Kind::GOAL).contains(&kind) && latest <= kind
}

#[tactic(auto, unfolding(bmap::specs::Accept::room))]
fn room_for(n: Counts, kind: u8) -> bool
    ensures { result ≡ room n kind }
{
    match kind {
        Kind::AGENTS => n.agents == 0,
        Kind::FLUENT => n.fluents < Counts::FLUENTS,
        Kind::KNOWLEDGE => n.knowledge < Counts::KNOWLEDGE,
        Kind::ENTRY => n.entries < Counts::ENTRIES,
        _ => n.laws < Counts::LAWS,
    }
}
