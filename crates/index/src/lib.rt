// What a judge reads of an accepted store, found once: the numbers of its fluents, knowledge and entries, and where each law
// stands. `domain` makes an index, `supplement` and `judge` read it; `session`, `answer` and `desk` ask it for its counts. What
// is handed out of a store is cut here, so that its place is promised once.
#![tactic(auto)]

ghost use Rattle.std.specs.Prelude.{◌≡◌, get_or, take, drop};
ghost use Rattle.index.specs.Index.{frame_bytes};
ghost use Rattle.index.specs.Place.{StandsAt};

use bmap::Counts;

#[derive(Clone, Copy, Debug, PartialEq, Eq)]
pub struct Index {
    pub counts: Counts,
    // A2 to A4, each kind in its order, zeros after.
    pub fluents: [Fluent; Counts::FLUENTS],
    pub knowledge: [Knowledge; Counts::KNOWLEDGE],
    pub entries: [Entry; Counts::ENTRIES],
    // A5 to A9: the place of the law's frame in the store.
    pub laws: [u16; Counts::LAWS],
}

// A2: a fluent's range, its start value and the limit of its change in one step: 0 where it has none, as in `Domain.Fluent`.
#[derive(Clone, Copy, Debug, PartialEq, Eq)]
pub struct Fluent {
    pub lowest: i16,
    pub highest: i16,
    pub start: i16,
    pub limit: u16,
}

// A3: a fluent, and the mask of the agents who know it.
#[derive(Clone, Copy, Debug, PartialEq, Eq)]
pub struct Knowledge {
    pub fluent: u8,
    pub knowers: u16,
}

// A4: an action's name, and the mask of its crew.
#[derive(Clone, Copy, Debug, PartialEq, Eq)]
pub struct Entry {
    pub name: u8,
    pub crew: u16,
}

// The frame of law i as it stands in the store: its kind, its count and its payload. Whoever reads the law in force asks
// `supplement` for its payload.
// For a law that is not there it is the frame at place 0.
pub fn law_at<'a>(store: &'a [u8], laws: &[u16], i: usize) -> &'a [u8]
    ensures { StandsAt store.entry (get_or laws.now i 0) (frame_bytes store.now (get_or laws.now i 0)) result }
{
    let at = laws.get(i).copied().unwrap_or(0);
    frame_from(store, at as usize)
}

// The bytes of the frame at a place: as many as its count says and the store has.
pub fn frame_from<'a>(store: &'a [u8], at: usize) -> &'a [u8]
    ensures { StandsAt store.entry at (frame_bytes store.now at) result }
{
    let count = byte_at(store, at.saturating_add(1));
    part(store, at, count as usize + 2)
}

// So many bytes of a store from a place on, or as many as it has, where they stand: every part that is handed out is cut here.
pub fn part<'a>(store: &'a [u8], at: usize, size: usize) -> &'a [u8]
    ensures { StandsAt store.entry at (take size (drop at store.now)) result }
{
    let rest = &store[at.min(store.len())..];
    &rest[..size.min(rest.len())]
}

// A byte of any bytes, 0 past their end.
pub fn byte_at(bytes: &[u8], i: usize) -> u8
    ensures { result ≡ get_or bytes.now i 0 }
{
    bytes.get(i).copied().unwrap_or(0)
}
