// The judgement of a sheet against a store, under a supplement or under none.
ghost use Rattle.std.specs.Prelude.{◌≡◌, ◌+◌, ◌≤◌, ◌↔◌, IsTrue, length};
ghost use Rattle.bmap.specs.Limits.{most_steps, levels_size};
ghost use Rattle.bmap.specs.Refusal.{got, then};
ghost use Rattle.bmap.specs.Domain.{Domain};
ghost use Rattle.bmap.specs.Sheet.{rows, sheet_of};
ghost use Rattle.bmap.specs.Supplement.{judge_under};
ghost use Rattle.bmap.specs.Judge.{judge};
ghost use Rattle.bmap.specs.Verdict.{judgement, judge_sheet};
ghost use Rattle.judge.specs.Answer.{answer_of, counted_of, states_counted, states_in, states_written, states_written_under, judge_for, states_written_for, Bounded};
ghost use Rattle.judge.specs.Prepared.{judged_of, Governs, InLimits, Anyhow, Judgeable};
ghost use Rattle.supplement.specs.Under.{under_in};

use crate::held::hold_laws;
use crate::knowledge::{all_knowers, all_owners};
use crate::reading::all_runs;
use crate::states::copy_states;
use crate::steps::{Plan, run_sheet};
use crate::verdict::{Judged, Verdict};
use bmap::{Counts, LEVELS, Refusal, Sheet};
use law::{HELD, HISTORY};
use supplement::{Under, index_of};

// What the checks need is found once: the laws in force, who knows what, whose laws count, where those of each kind stand.
// n counts steps, as the sheet's rows, whose length only a domain tells.
fn judge_steps<'a>(
    store: &'a [u8],
    supplement: &'a [u8],
    under: Under,
    sheet: &[u8],
    n: usize,
    history: &mut [i16; HISTORY],
) -> Judged
    requires { Judgeable under sheet.now n history.old }
    ensures few { result.states ≤ most_steps + 1 }
    ensures judged { (d : Domain) → Governs store.now supplement.now under d
        → judged_of under.index.counts.fluents result history.new ≡ judge d (rows under.index.counts.agents n sheet.now) }
{
    let index = under.index;
    let counts = index.counts;
    let mut held = [0u8; HELD];
    hold_laws(
        &mut held,
        store,
        &index.laws,
        supplement,
        &under.over,
        counts.laws,
    );
    let table = all_knowers(&index.knowledge[..counts.knowledge], counts.fluents);
    let owners = all_owners(
        &held,
        counts.laws,
        &table[..counts.fluents],
        &index.entries,
        counts.agents,
    );
    let runs = all_runs(&held, &owners[..counts.laws]);
    let plan = Plan {
        counts,
        owners,
        runs,
        fluents: index.fluents,
        entries: index.entries,
    };
    run_sheet(&held, &plan, sheet, n, history)
}

// By what was found: "8, 9", then the states go to the caller's buffer once.
fn judge_by<'a>(
    store: &'a [u8],
    supplement: &'a [u8],
    under: Under,
    sheet: &[u8],
    levels: &mut [i16],
) -> Result<Judged, Refusal>
    requires limits { InLimits under.index.counts }
    requires room { levels_size ≤ length levels.old }
    ensures levels_after { (d : Domain) → Governs store.now supplement.now under d
        → record { answer = counted_of result; levels = levels.new }
        ≡ judgement levels.old (then (sheet_of under.index.counts.agents sheet.now) (λ steps. got (judge d steps))) }
    ensures states { (d : Domain) → Governs store.now supplement.now under d
        → states_counted result ≡ states_in (then (sheet_of under.index.counts.agents sheet.now) (λ steps. got (judge d steps))) }
    ensures bounded { Bounded under.index.counts.fluents levels.old result levels.new }
{
    let counts = under.index.counts;
    let agents = counts.agents;
    if sheet.len() % agents != 0 {
        return Err(Refusal::NotWhole);
    }
    let n = sheet.len() / agents;
    if Sheet::STEPS < n {
        return Err(Refusal::TooLong);
    }
    let mut history = [0i16; HISTORY];
    let judged = judge_steps(store, supplement, under, sheet, n, &mut history);
    copy_states(&mut history, judged.states, counts.fluents, levels);
    Ok(judged)
}

// "Judge: 10, 15, 8, 9": the verdict, and the states reached in the levels buffer; a refusal touches nothing.
pub fn judge(store: &[u8], sheet: &[u8], levels: &mut [i16]) -> Result<Verdict, Refusal>
    ensures { record { answer = answer_of result; levels = levels.new } ≡ judge_sheet store.now sheet.now levels.old }
{
    let judged = judge_counted(store, sheet, levels)?;
    Ok(judged.verdict)
}

// The same, with the number of states written: kind 7 or 9 at step n leaves n or n + 1 of them.
pub fn judge_counted(store: &[u8], sheet: &[u8], levels: &mut [i16]) -> Result<Judged, Refusal>
    ensures levels_after { record { answer = counted_of result; levels = levels.new } ≡ judge_sheet store.now sheet.now levels.old }
    ensures states { states_counted result ≡ states_written store.now sheet.now levels.old }
{
    // "an empty supplement changes nothing"
    judge_under_counted(store, &store[..0], sheet, levels)
}

// "Judging with a supplement equals judging the domain with those laws replaced": 15 also for a supplement that is not one for it.
// The two stores have one lifetime, since a law in force is a part of either.
pub fn judge_under<'a>(
    store: &'a [u8],
    supplement: &'a [u8],
    sheet: &[u8],
    levels: &mut [i16],
) -> Result<Verdict, Refusal>
    ensures { record { answer = answer_of result; levels = levels.new } ≡ judge_under store.now supplement.now sheet.now levels.old }
{
    let judged = judge_under_counted(store, supplement, sheet, levels)?;
    Ok(judged.verdict)
}

pub fn judge_under_counted<'a>(
    store: &'a [u8],
    supplement: &'a [u8],
    sheet: &[u8],
    levels: &mut [i16],
) -> Result<Judged, Refusal>
    ensures levels_after { record { answer = counted_of result; levels = levels.new } ≡ judge_under store.now supplement.now sheet.now levels.old }
    ensures states { states_counted result ≡ states_written_under store.now supplement.now sheet.now levels.old }
{
    judge_found(
        store,
        supplement,
        index_of(store, supplement),
        sheet,
        levels,
    )
}

// By what was found of the two stores: no frame in them is checked again. What was found of others says nothing of these: it is
// refused where it is beyond the limits, and else judged without harm.
pub fn judge_found<'a>(
    store: &'a [u8],
    supplement: &'a [u8],
    under: Under,
    sheet: &[u8],
    levels: &mut [i16],
) -> Result<Judged, Refusal>
    ensures levels_after { under ≡ under_in store.now supplement.now
        → record { answer = counted_of result; levels = levels.new } ≡ judge_under store.now supplement.now sheet.now levels.old }
    ensures states { under ≡ under_in store.now supplement.now
        → states_counted result ≡ states_written_under store.now supplement.now sheet.now levels.old }
    ensures anyhow { Anyhow under levels.old result levels.new }
{
    if levels.len() < LEVELS {
        return Err(Refusal::NoRoom);
    }
    if !under.ok {
        return Err(Refusal::NotDomain);
    }
    if !keeps_limits(under.index.counts) {
        return Err(Refusal::NotDomain);
    }
    judge_by(store, supplement, under, sheet, levels)
}

// The numbers of every domain.
fn keeps_limits(n: Counts) -> bool
    ensures { IsTrue result ↔ InLimits n }
{
    n.agents != 0
        && n.agents <= Counts::AGENTS
        && n.fluents <= Counts::FLUENTS
        && n.knowledge <= Counts::KNOWLEDGE
        && n.entries <= Counts::ENTRIES
        && n.laws <= Counts::LAWS
}

// The same without a supplement, of a sheet for so many agents: "10, 15, 16", then "8, 9". Who knows how many they are asks here,
// and the store is looked at once.
pub fn judge_for(
    agents: usize,
    store: &[u8],
    sheet: &[u8],
    levels: &mut [i16],
) -> Result<Judged, Refusal>
    ensures levels_after { record { answer = counted_of result; levels = levels.new } ≡ judge_for agents store.now sheet.now levels.old }
    ensures states { states_counted result ≡ states_written_for agents store.now sheet.now levels.old }
{
    if levels.len() < LEVELS {
        return Err(Refusal::NoRoom);
    }
    let under = index_of(store, &store[..0]);
    if !under.ok {
        return Err(Refusal::NotDomain);
    }
    if under.index.counts.agents != agents {
        return Err(Refusal::OtherAgents);
    }
    judge_by(store, &store[..0], under, sheet, levels)
}
