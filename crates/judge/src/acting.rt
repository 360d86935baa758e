// Who acts in a step: the entries that occur, as a mask, and check 1 of the agents by the mask of those who belong to one of them.
ghost use Rattle.std.specs.Prelude.{◌≡◌, true, not, ◌+◌, ◌-◌, ◌*◌, ◌^◌, ◌≤◌, ◌<◌, eqb, length};
ghost use Rattle.std.specs.Int.Bits.{bit_and, bit_or};
ghost use Rattle.bmap.specs.Plain.{both, if_else};
ghost use Rattle.bmap.specs.Limits.{most_agents};
ghost use Rattle.bmap.specs.Domain.{Domain, Names, has};
ghost use Rattle.judge.specs.Masks.{flag_of, mask_from, joins, occurs_of, Others, Crewed, Again};
ghost use Rattle.judge.specs.Told.{Acts};
ghost use Rattle.judge.specs.Prepared.{Entered};

use crate::checks::check_agents;
use crate::verdict::Breach;
use bmap::Counts;
use index::Entry;

// A name is a byte.
const NAMES: usize = 256;

// The entries that occur, and the agents who belong to one of them.
#[derive(Clone, Copy)]
pub struct Occurs {
    pub entries: u64,
    pub agents: u16,
}

// What the names of a step say by themselves: the entries that occur, and check 1.
#[derive(Clone, Copy)]
pub struct Acting {
    pub entries: u64,
    pub placed: Result<(), Breach>,
}

// A step: who acts in it, and the state that it starts from.
#[derive(Clone, Copy)]
pub struct Step {
    pub acting: Acting,
    pub j: usize,
}

// "Mask bit i stands for agent i", and so for entry i. A mask has no bit past the last entry's.
pub(crate) fn has(mask: u64, i: usize) -> bool
    ensures { result ≡ has mask i }
{
    i < Counts::ENTRIES && (mask >> i) % 2 == 1
}

// The mask, moved up by one, with a new lowest bit.
pub(crate) fn pushed(mask: u64, bit: bool) -> u64
    requires { mask < 2 ^ 63 }
    ensures { result ≡ mask * 2 + flag_of bit }
{
    mask * 2 + u64::from(bit)
}

// The agents of both masks, if the second is to be taken in.
pub(crate) fn taken_in(agents: u16, others: u16, all: bool) -> u16
    ensures { result ≡ if_else all (bit_or agents others) agents }
{
    if all { agents | others } else { agents }
}

// Somebody is in both.
pub(crate) fn share(a: u16, b: u16) -> bool
    ensures { result ≡ not (eqb (bit_and a b) 0) }
{
    a & b != 0
}

// The first n agents.
fn everyone(n: usize) -> u16
    requires { n ≤ most_agents }
    ensures { result ≡ mask_from (λ _. true) 0 n }
{
    let limit: u32 = 1 << n;
    (limit - 1) as u16
}

// For each name, the agents who give another: all of them, until each is taken out where its own name stands.
fn all_others(names: &[u8]) -> [u16; NAMES]
    requires { length names.now ≤ most_agents }
    ensures { Others names.now result }
{
    let mut others = [everyone(names.len()); NAMES];
    for a in 0..names.len() {
        let name = names[a] as usize;
        others[name] -= 1 << a;
    }
    others
}

// "An entry occurs in a step when every agent of its crew names its action": nobody of it names another.
fn all_name(others: &[u16; NAMES], action: u8, crew: u16) -> bool
    ensures { (names : Names) → Others names others.now → result ≡ joins names action crew }
{
    !share(others[action as usize], crew)
}

// The entries, from the last to the first, so that each takes the lowest bit.
fn who_acts(names: &[u8], entries: &[Entry]) -> Occurs
    requires { Crewed (length names.now) (length entries.now) }
    ensures { result ≡ occurs_of names.now entries.now (length entries.now) }
{
    let others = all_others(names);
    let mut occurring: u64 = 0;
    let mut agents: u16 = 0;
    for i in (0..entries.len()).rev() {
        let entry = entries[i];
        let occurs = all_name(&others, entry.name, entry.crew);
        occurring = pushed(occurring, occurs);
        agents = taken_in(agents, entry.crew, occurs);
    }
    Occurs {
        entries: occurring,
        agents,
    }
}

// Everybody names what was named in the step before, if there was one. The loop has no exit, so that several names are read at
// a time.
fn same_names(names: &[u8], before: &[u8]) -> bool
    ensures { result ≡ true → Again names.now before.now }
{
    if before.is_empty() || before.len() != names.len() {
        return false;
    }
    let mut same = true;
    for a in 0..names.len() {
        same &= names[a] == before[a];
    }
    same
}

// Who acts in a step: equal names, equal answers, so that of a step with the names of the last one nothing is asked.
pub(crate) fn acting_in(names: &[u8], before: &[u8], last: Acting, entries: &[Entry]) -> Acting
    requires { Crewed (length names.now) (length entries.now) }
    ensures { (d : Domain) → Entered d entries.now (length entries.now) → length names.now ≡ d.agents → (0 < length before.now → Acts d before.now last)
        → Acts d names.now result }
{
    if same_names(names, before) {
        return last;
    }
    let occurs = who_acts(names, entries);
    Acting {
        entries: occurs.entries,
        placed: check_agents(names, occurs.agents),
    }
}
