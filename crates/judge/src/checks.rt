// The checks of a step: its agents, its entries, and the laws of a scope.
ghost use Rattle.std.specs.Prelude.{◌≡◌, true, ℕ, ◌≤◌, ◌<◌, length, get_or, drop};
ghost use Rattle.bmap.specs.Limits.{most_agents, most_entries, most_laws};
ghost use Rattle.bmap.specs.Domain.{Domain, Names, Law, Scope};
ghost use Rattle.bmap.specs.Meaning.{History};
ghost use Rattle.bmap.specs.Payload.{asks, scope_kind};
ghost use Rattle.bmap.specs.Judge.{each, placed, permits, permitted, may_occur, holds, all_hold};
ghost use Rattle.index.specs.Index.{law_number};
ghost use Rattle.law.specs.Evaluate.{held_size};
ghost use Rattle.judge.specs.Answer.{pass_of, kind_of};
ghost use Rattle.judge.specs.Told.{Belonging, Acts, Says, Lawful, Owned, Within, Own, Owns, Seen, no_run};

use crate::acting::{Step, has};
use crate::reading::{Run, constraint_of, valued};
use crate::verdict::{Breach, Fault};
use bmap::{Counts, FRAME};
use law::{HELD, HISTORY};
use number::Truth;

// 1: "each agent by number: it names an action but belongs to no occurring entry with that name". The mask has the agents
// who belong to an occurring entry, whose action they all name.
pub(crate) fn check_agents(names: &[u8], agents: u16) -> Result<(), Breach>
    requires { length names.now ≤ most_agents }
    ensures { (d : Domain) → Belonging d names.now agents → pass_of result ≡ each (placed d names.now) names.now }
{
    for a in 0..names.len() {
        if names[a] != 0 && !has(u64::from(agents), a) {
            return Err(Breach {
                fault: Fault::Misplaced,
                number: a,
            });
        }
    }
    Ok(())
}

// Held laws, history and position come one by one here, in `effects` and in `reading`: see `constraint_of`.

// What one law says for entry i: the owners' table has the laws that its crew may read.
fn try_law(
    held: &[u8; HELD],
    owners: &[Option<u8>; Counts::LAWS],
    history: &[i16; HISTORY],
    j: usize,
    i: usize,
    l: usize,
) -> Truth
    requires entry { i < most_entries }
    requires law { l < most_laws }
    ensures { (d : Domain) (h : History) (n : ℕ) → Lawful d held.now n → l < n → Owned d owners.now → Seen true d h history.now j
        → result ≡ permits d h j i (law_number d l) }
{
    let Some(owner) = owners[l] else {
        return Ok(false);
    };
    if owner as usize != i {
        return Ok(false);
    }
    constraint_of(held, FRAME * l + 3, history, j)
}

// "its A5 laws in order until one is true": entry i.
fn check_entry(
    held: &[u8; HELD],
    owners: &[Option<u8>; Counts::LAWS],
    run: Run,
    history: &[i16; HISTORY],
    j: usize,
    i: usize,
) -> Result<(), Breach>
    requires entry { i < most_entries }
    requires few { run.to ≤ most_laws }
    ensures { (d : Domain) (h : History) (n : ℕ) → Lawful d held.now n → Own owners.now n i run → Owned d owners.now
        → Seen true d h history.now j → pass_of result ≡ permitted d h j i 0 d.laws }
{
    for l in run.from..run.to {
        let allowed = valued(try_law(held, owners, history, j, i, l), l)?;
        if allowed {
            return Ok(());
        }
    }
    Err(Breach {
        fault: Fault::Barred,
        number: i,
    })
}

// 2: "each occurring entry by number": the mask, bit by bit, until none is left.
pub(crate) fn check_entries(
    held: &[u8; HELD],
    owners: &[Option<u8>; Counts::LAWS],
    own: &[Run; Counts::ENTRIES],
    step: Step,
    history: &[i16; HISTORY],
) -> Result<(), Breach>
    requires { (i : ℕ) → i < most_entries → (get_or own.now i no_run).to ≤ most_laws }
    ensures { (d : Domain) (h : History) (n : ℕ) (names : Names) → Lawful d held.now n → Owns owners.now n own.now → Owned d owners.now
        → Acts d names step.acting → Seen true d h history.now step.j → pass_of result ≡ each (may_occur d h step.j names) d.entries }
{
    let mut rest = step.acting.entries;
    let mut i = 0;
    while rest != 0 {
        if rest % 2 == 1 {
            check_entry(held, owners, own[i], history, step.j, i)?;
        }
        rest /= 2;
        i += 1;
    }
    Ok(())
}

// A law of the scope whose kind is asked for, false: that fault.
fn check_law(
    held: &[u8; HELD],
    at: usize,
    kind: u8,
    fault: Fault,
    history: &[i16; HISTORY],
    j: usize,
    l: usize,
) -> Result<(), Breach>
    requires { at < held_size }
    ensures { (d : Domain) (h : History) (s : Scope) (law : Law) → kind ≡ scope_kind s → Says d (drop at held.now) law → Seen (asks s) d h history.now j
        → pass_of result ≡ holds s (kind_of fault) h j l law }
{
    if held[at] != kind {
        return Ok(());
    }
    let met = valued(constraint_of(held, at + 2, history, j), l)?;
    if met {
        return Ok(());
    }
    Err(Breach { fault, number: l })
}

// 3, 6 and the goals: each law of a kind in order.
pub(crate) fn check_laws(
    held: &[u8; HELD],
    run: Run,
    kind: u8,
    fault: Fault,
    history: &[i16; HISTORY],
    j: usize,
) -> Result<(), Breach>
    requires { run.to ≤ most_laws }
    ensures { (d : Domain) (h : History) (s : Scope) (n : ℕ) → kind ≡ scope_kind s → Lawful d held.now n → Within held.now n kind run
        → Seen (asks s) d h history.now j → pass_of result ≡ all_hold s (kind_of fault) d h j }
{
    for l in run.from..run.to {
        check_law(held, FRAME * l, kind, fault, history, j, l)?;
    }
    Ok(())
}

// The same in a step. A domain often has no law of a kind: small enough to be compiled into its callers, this costs it no call.
pub(crate) fn check_in_step(
    held: &[u8; HELD],
    run: Run,
    kind: u8,
    fault: Fault,
    history: &[i16; HISTORY],
    j: usize,
) -> Result<(), Breach>
    requires { run.to ≤ most_laws }
    ensures { (d : Domain) (h : History) (s : Scope) (n : ℕ) → kind ≡ scope_kind s → Lawful d held.now n → Within held.now n kind run
        → Seen (asks s) d h history.now j → pass_of result ≡ all_hold s (kind_of fault) d h j }
{
    if run.to <= run.from {
        return Ok(());
    }
    check_laws(held, run, kind, fault, history, j)
}
