// What the held laws say.
ghost use Rattle.std.specs.Prelude.{◌≡◌, true, ℕ, ◌+◌, ◌≤◌, ◌<◌, length, get_or, drop, min};
ghost use Rattle.bmap.specs.Domain.{Domain, Names, Law};
ghost use Rattle.bmap.specs.Meaning.{History, eval_c};
ghost use Rattle.bmap.specs.Judge.{sets, reads};
ghost use Rattle.bmap.specs.Limits.{most_depth, most_laws};
ghost use Rattle.law.specs.Evaluate.{held_size, at_position, value_at};
ghost use Rattle.judge.specs.Settings.{setting_from};
ghost use Rattle.judge.specs.Told.{Says, Seen, Occurring, Within, Owns, Ordered, con_of, place_of, asks_of};
ghost use Rattle.judge.specs.Answer.{checked_of, wants_of};

use crate::acting::has;
use crate::verdict::{Breach, Fault};
use bmap::{Counts, FRAME, Kind, Reason};
use law::{HELD, HISTORY};
use number::Truth;

// What the constraint of a law gives at position j. It stands after kind and count, and after the entry if there is one. No
// accepted law is malformed: that it would then be a zero divisor, here and below, is said of none.
// Held laws, history and position come one by one, here and in every check: as one struct of references each clause would name the
// moment as well, `at.entry.history.now` for `history.now`, and be longer.
pub(crate) fn constraint_of(
    held: &[u8; HELD],
    at: usize,
    history: &[i16; HISTORY],
    j: usize,
) -> Truth
    ensures { (d : Domain) (h : History) (l : Law) (p : ℕ) → Says d (drop p held.now) l → at ≡ p + place_of l → Seen (asks_of l) d h history.now j → result ≡ eval_c (con_of l) h j }
{
    match law::constraint_at(held, at, history, j) {
        Some((truth, _)) => truth,
        None => Err(Reason::ZeroDivisor),
    }
}

// What a law sets: a fluent's new level.
#[derive(Clone, Copy)]
pub struct Setting {
    pub fluent: u8,
    pub level: i32,
}

// A fluent and the expression after it.
fn setting_at(
    held: &[u8; HELD],
    at: usize,
    history: &[i16; HISTORY],
    j: usize,
) -> Result<Option<Setting>, Reason>
    ensures { wants_of result ≡ setting_from (get_or held.now at 0) (at_position j (value_at most_depth held.now (at + 1) history.now j)) }
{
    if HELD <= at {
        return Err(Reason::ZeroDivisor);
    }
    let Some((value, _)) = law::expression_at(held, at + 1, history, j) else {
        return Err(Reason::ZeroDivisor);
    };
    let level = value?;
    let fluent = held[at];
    Ok(Some(Setting { fluent, level }))
}

// What a law sets, if anything; or why it has no value. "each A6 law in order whose entry
// occurs: constraint, and if true, expression"
pub(crate) fn wanted(
    held: &[u8; HELD],
    at: usize,
    entries: u64,
    history: &[i16; HISTORY],
    j: usize,
) -> Result<Option<Setting>, Reason>
    requires { at + 2 < held_size }
    ensures { (d : Domain) (h : History) (l : Law) (names : Names) → Says d (drop at held.now) l → Occurring d names entries → Seen true d h history.now j → wants_of result ≡ sets d h j names l }
{
    if held[at] != Kind::EFFECT || !has(entries, held[at + 2] as usize) {
        return Ok(None);
    }
    let Some((truth, end)) = law::constraint_at(held, at + 3, history, j) else {
        return Err(Reason::ZeroDivisor);
    };
    let met = truth?;
    if met {
        return setting_at(held, end, history, j);
    }
    Ok(None)
}

// The value of law l, or the fault that it has none.
pub(crate) fn valued<T: Copy>(value: Result<T, Reason>, l: usize) -> Result<T, Breach>
    ensures { checked_of result ≡ reads l value }
{
    match value {
        Ok(x) => Ok(x),
        Err(why) => Err(Breach {
            fault: Fault::from(why),
            number: l,
        }),
    }
}

// A run of law numbers. The kinds never decrease from law to law, so the laws of a kind stand together.
#[derive(Clone, Copy)]
pub struct Run {
    pub from: usize,
    pub to: usize,
}

impl Run {
    // None of the first n laws.
    fn none(n: usize) -> Run
        ensures { result ≡ record { from = n; to = 0 } }
    {
        Run { from: n, to: 0 }
    }

    // With a law that comes after those in it.
    fn with(self, l: usize) -> Run
        requires { l < most_laws }
        ensures { result ≡ record { from = min self.from l; to = l + 1 } }
    {
        Run {
            from: self.from.min(l),
            to: l + 1,
        }
    }
}

// The laws of a kind: n counts laws, of which each has FRAME bytes of what is held.
fn run_of(held: &[u8; HELD], n: usize, kind: u8) -> Run
    requires { n ≤ most_laws }
    ensures { Within held.now n kind result }
{
    let mut run = Run::none(n);
    for l in 0..n {
        if held[FRAME * l] == kind {
            run = run.with(l);
        }
    }
    run
}

// The laws that each entry owns: the others are not asked about it.
fn all_own(owners: &[Option<u8>]) -> [Run; Counts::ENTRIES]
    requires { length owners.now ≤ most_laws }
    ensures { Owns owners.now (length owners.now) result }
{
    let mut own = [Run::none(owners.len()); Counts::ENTRIES];
    for l in 0..owners.len() {
        if let Some(owner) = owners[l] {
            let e = owner as usize;
            if e < Counts::ENTRIES {
                own[e] = own[e].with(l);
            }
        }
    }
    own
}

// Where the laws of each entry and of each kind stand.
#[derive(Clone, Copy)]
pub struct Runs {
    pub own: [Run; Counts::ENTRIES],
    pub effect: Run,
    pub fixed: Run,
    pub concurrency: Run,
    pub goal: Run,
}

pub(crate) fn all_runs(held: &[u8; HELD], owners: &[Option<u8>]) -> Runs
    requires { length owners.now ≤ most_laws }
    ensures { Ordered held.now owners.now (length owners.now) result }
{
    let n = owners.len();
    Runs {
        own: all_own(owners),
        effect: run_of(held, n, Kind::EFFECT),
        fixed: run_of(held, n, Kind::STATIC),
        concurrency: run_of(held, n, Kind::CONCURRENCY),
        goal: run_of(held, n, Kind::GOAL),
    }
}
