// Which executability laws count, found once for a judgement: "a law that names a fluent known to nobody in the crew counts as
// false and is not read".
ghost use Rattle.std.specs.Prelude.{◌≡◌, not, ℕ, ◌+◌, ◌%◌, ◌^◌, ◌≤◌, ◌<◌, eqb, length, get_or, drop};
ghost use Rattle.std.specs.Int.Bits.{bit_and};
ghost use Rattle.bmap.specs.Limits.{most_agents, most_fluents, most_laws};
ghost use Rattle.bmap.specs.Domain.{Domain, Law};
ghost use Rattle.law.specs.Evaluate.{held_size};
ghost use Rattle.judge.specs.Masks.{crew_at, mask_from};
ghost use Rattle.judge.specs.Told.{Says, Lawful, Owned, Tabled, Knowing, owner_of, knowers_of};

use crate::acting::{pushed, share, taken_in};
use bmap::{Counts, FRAME, Kind};
use index::{Entry, Knowledge, part};
use law::HELD;

// The agents who know a fluent: "several frames add up".
fn knowers_of(knowledge: &[Knowledge], f: usize) -> u16
    ensures { result ≡ knowers_of knowledge.now f }
{
    let mut agents: u16 = 0;
    for i in (0..knowledge.len()).rev() {
        let known = knowledge[i];
        agents = taken_in(agents, known.knowers, known.fluent as usize == f);
    }
    agents
}

// For each of w fluents, the agents who know it.
pub(crate) fn all_knowers(knowledge: &[Knowledge], w: usize) -> [u16; Counts::FLUENTS]
    requires { w ≤ most_fluents }
    ensures { (f : ℕ) → f < w → get_or result f 0 ≡ knowers_of knowledge.now f }
{
    let mut table = [0u16; Counts::FLUENTS];
    for f in 0..w {
        table[f] = knowers_of(knowledge, f);
    }
    table
}

// The fluents that somebody of a crew knows, as a mask.
fn known_to(table: &[u16], crew: u16) -> u32
    requires { length table.now ≤ most_fluents }
    ensures { result ≡ mask_from (λ f. not (eqb (bit_and crew (get_or table.now f 0)) 0)) 0 (length table.now) }
{
    let mut mask: u64 = 0;
    for f in (0..table.len()).rev() {
        mask = pushed(mask, share(crew, table[f]));
    }
    mask as u32
}

// The crew of an entry, without bits that stand for no agent.
fn crew_of(entries: &[Entry; Counts::ENTRIES], e: u8, agents: usize) -> u16
    requires { agents ≤ most_agents }
    ensures { result ≡ crew_at entries.now e % 2 ^ agents }
{
    let crew = entries.get(e as usize).map_or(0, |entry| entry.crew);
    let limit: u32 = 1 << agents;
    (crew as u32 % limit) as u16
}

// The entry of an executability law that its crew may read.
fn owner_of(
    held: &[u8; HELD],
    at: usize,
    table: &[u16],
    entries: &[Entry; Counts::ENTRIES],
    agents: usize,
) -> Option<u8>
    requires at_law { at + 2 < held_size }
    requires few { Tabled (length table.now) agents }
    ensures { (d : Domain) (l : Law) → Says d (drop at held.now) l → Knowing d table.now entries.now agents → result ≡ owner_of d l }
{
    if held[at] != Kind::EXECUTABLE {
        return None;
    }
    let e = held[at + 2];
    let frame = part(held, at, FRAME);
    if law::names_only(frame, 3, known_to(table, crew_of(entries, e, agents))) {
        return Some(e);
    }
    None
}

// The owner of each law: n counts laws, of which each has FRAME bytes of what is held.
pub(crate) fn all_owners(
    held: &[u8; HELD],
    n: usize,
    table: &[u16],
    entries: &[Entry; Counts::ENTRIES],
    agents: usize,
) -> [Option<u8>; Counts::LAWS]
    requires laws { n ≤ most_laws }
    requires few { Tabled (length table.now) agents }
    ensures { (d : Domain) → Lawful d held.now n → Knowing d table.now entries.now agents → Owned d result }
{
    let mut owners = [None; Counts::LAWS];
    for i in 0..n {
        owners[i] = owner_of(held, FRAME * i, table, entries, agents);
    }
    owners
}
