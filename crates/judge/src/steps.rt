// A step, the run over all steps, the goals.
ghost use Rattle.std.specs.Prelude.{◌≡◌, List, [], ℕ, ◌+◌, ◌≤◌, ◌<◌};
ghost use Rattle.bmap.specs.Limits.{most_steps};
ghost use Rattle.bmap.specs.Domain.{Domain, Names};
ghost use Rattle.bmap.specs.Sheet.{rows};
ghost use Rattle.bmap.specs.Judge.{carried, judge, landed};
ghost use Rattle.bmap.specs.Judge as paper;
ghost use Rattle.judge.specs.Answer.{pass_of};
ghost use Rattle.judge.specs.States.{state_at, states_of, marks_from, Kept};
ghost use Rattle.judge.specs.Landing.{Laid, Landed, allowed};
ghost use Rattle.judge.specs.Told.{Occurring, Acts, Acted};
ghost use Rattle.judge.specs.Prepared.{Limited, Runnable, RanThrough, Planned, judged_of};
ghost use Rattle.judge.specs.declared.verdict.Verdict.TheVariants.{Broken};

use crate::acting::{Acting, Step, acting_in};
use crate::checks::{check_entries, check_in_step, check_laws};
use crate::effects::lay_effects;
use crate::landing::{old_levels, put_state};
use crate::reading::Runs;
use crate::states::{mark_step, put_start};
use crate::verdict::{Breach, Fault, Judged, Verdict};
use bmap::{Counts, Kind};
use index::{Entry, Fluent};
use law::{HELD, HISTORY};

// What is found once for a judgement, and lent to all that it calls.
#[derive(Clone, Copy)]
pub struct Plan {
    pub counts: Counts,
    pub owners: [Option<u8>; Counts::LAWS],
    pub runs: Runs,
    pub fluents: [Fluent; Counts::FLUENTS],
    pub entries: [Entry; Counts::ENTRIES],
}

// Checks 1 to 3: whoever acts belongs to an entry that occurs, and the laws allow what occurs.
fn check_acts(
    held: &[u8; HELD],
    plan: &Plan,
    step: Step,
    history: &[i16; HISTORY],
) -> Result<(), Breach>
    requires limits { Limited plan.now }
    requires step { step.j < most_steps }
    ensures { (d : Domain) (n : ℕ) (sheet : List Names) (names : Names)
        → Planned d held.now n plan.now → Acts d names step.acting → Acted d sheet history.now (step.j + 1)
        → pass_of result ≡ allowed d (paper.history d sheet (states_of plan.now.counts.fluents (step.j + 1) history.now)) step.j names }
{
    step.acting.placed?;
    let runs = &plan.runs;
    check_entries(held, &plan.owners, &runs.own, step, history)?;
    check_in_step(
        held,
        runs.concurrency,
        Kind::CONCURRENCY,
        Fault::Concurrency,
        history,
        step.j,
    )
}

// Checks 4 to 6: what the effect laws set, the new state as state j + 1, the static laws on it. The levels of state j are given,
// wide enough for what an expression gives, and those of the new state left in their place: so they are read once for a sheet.
fn land(
    held: &[u8; HELD],
    plan: &Plan,
    step: Step,
    new: &mut [i32; Counts::FLUENTS],
    history: &mut [i16; HISTORY],
) -> Result<(), Breach>
    requires limits { Limited plan.now }
    requires step { step.j < most_steps }
    ensures kept { Kept step.j history.old history.new }
    ensures landed { (d : Domain) (n : ℕ) (sheet : List Names) (names : Names)
        → Planned d held.now n plan.now → Occurring d names step.acting.entries → Acted d sheet history.old (step.j + 1)
        → Laid plan.now.counts.fluents new.old [] (state_at plan.now.counts.fluents history.old step.j)
        → Landed result plan.now.counts.fluents new.new (state_at plan.now.counts.fluents history.new (step.j + 1)) (landed d sheet (states_of plan.now.counts.fluents (step.j + 1) history.old) step.j names) }
{
    // "Effects are settled by values before the step": the present is state j, and the static laws are read on the next.
    let present = step.j;
    let next = present + 1;
    let w = plan.counts.fluents;
    lay_effects(
        held,
        plan.runs.effect,
        step.acting.entries,
        history,
        present,
        new,
    )?;
    put_state(&plan.fluents[..w], new, history, present)?;
    check_in_step(
        held,
        plan.runs.fixed,
        Kind::STATIC,
        Fault::Static,
        history,
        next,
    )
}

// A breach at a step, with so many states reached before it.
fn broken(breach: Breach, step: usize, states: usize) -> Judged
    ensures { result ≡ record { verdict = Broken breach.fault step breach.number; states = states } }
{
    let verdict = Verdict::Broken {
        fault: breach.fault,
        step,
        number: breach.number,
    };
    Judged { verdict, states }
}

// The steps in turn, from state 0 of the history; who acted in each is marked for code 29. n counts steps, as the sheet's rows.
fn run_steps(
    held: &[u8; HELD],
    plan: &Plan,
    sheet: &[u8],
    n: usize,
    history: &mut [i16; HISTORY],
) -> Judged
    requires { Runnable plan.now sheet.now n history.old (marks_from 0) }
    ensures through { RanThrough result n }
    ensures judged { (d : Domain) (l : ℕ) → Planned d held.now l plan.now
        → judged_of plan.now.counts.fluents result history.new ≡ carried d (rows plan.now.counts.agents n sheet.now) 0 (states_of plan.now.counts.fluents 1 history.old) (rows plan.now.counts.agents n sheet.now) }
{
    let counts = plan.counts;
    let agents = counts.agents;
    let mut levels = [0i32; Counts::FLUENTS];
    old_levels(history, 0, counts.fluents, &mut levels);
    let mut acting = Acting {
        entries: 0,
        placed: Ok(()),
    };
    let entries = &plan.entries[..counts.entries];
    let mut before = &sheet[..0];
    let mut rest = sheet;
    for j in 0..n {
        let names = &rest[..agents];
        acting = acting_in(names, before, acting, entries);
        mark_step(history, j, acting.entries, counts.entries);
        let step = Step { acting, j };
        if let Err(breach) = check_acts(held, plan, step, history) {
            return broken(breach, j + 1, j + 1);
        }
        if let Err(breach) = land(held, plan, step, &mut levels, history) {
            return broken(breach, j + 1, j + 1);
        }
        before = names;
        rest = &rest[agents..];
    }
    Judged {
        verdict: Verdict::Accepted,
        states: n + 1,
    }
}

// The static laws on state 0, the steps, the goals after the last.
pub(crate) fn run_sheet(
    held: &[u8; HELD],
    plan: &Plan,
    sheet: &[u8],
    n: usize,
    history: &mut [i16; HISTORY],
) -> Judged
    requires { Runnable plan.now sheet.now n history.old 0 }
    ensures few { result.states ≤ most_steps + 1 }
    ensures judged { (d : Domain) (l : ℕ) → Planned d held.now l plan.now
        → judged_of plan.now.counts.fluents result history.new ≡ judge d (rows plan.now.counts.agents n sheet.now) }
{
    put_start(&plan.fluents[..plan.counts.fluents], history);
    if let Err(breach) = check_laws(
        held,
        plan.runs.fixed,
        Kind::STATIC,
        Fault::Static,
        history,
        0,
    ) {
        return broken(breach, 0, 0);
    }
    let judged = run_steps(held, plan, sheet, n, history);
    let verdict = judged.verdict;
    let Verdict::Accepted = verdict else {
        return judged;
    };
    // "After the last step n each A9 law in order is read at position n."
    if let Err(breach) = check_laws(held, plan.runs.goal, Kind::GOAL, Fault::Goal, history, n) {
        return broken(breach, n, n + 1);
    }
    judged
}
