// The report: a domain's text and those of its sheets, each judged in turn, to the morning's figures.
ghost use Rattle.std.specs.Prelude.{◌≡◌, List, [], ◌≤◌, length, drop};
ghost use Rattle.bmap.specs.Limits.{levels_size};
ghost use Rattle.bmap.specs.Line.{lines_of};
ghost use Rattle.bmap.specs.Domain.{Domain};
ghost use Rattle.bmap.specs.Supplement.{Replacement, replaced};
ghost use Rattle.bmap.specs.Judge as paper;
ghost use Rattle.bmap.specs.Report as report;
ghost use Rattle.answer.specs.Put.{PutOr, HasRoom};
ghost use Rattle.answer.specs.Room.{output_size, Few};
ghost use Rattle.answer.specs.Speaks.{Speaks};
ghost use Rattle.answer.specs.Morning.{ComesTo, Modest, Ready, Opened, Kept, NextIs, NextUnderway, report_from};
ghost use Rattle.answer.specs.Answer.{answered};

use crate::cut::{Cut, line_starting};
use crate::print::{States, Text};
use crate::program::{LONG_INPUT, after, printed};
use bmap::{INPUT, LEVELS, ReadError, Refusal, SHEET_BEGINS, SHEETS, STORE, Sheet};
use judge::Verdict;
use supplement::{Under, alone};

// The levels of the most sheets, each of the most states of the most fluents.
const STATES: usize = SHEETS * LEVELS;

// Where a report is: at the next B000 line or the input's end, after so many lines, with so many sheets and states.
#[derive(Clone, Copy)]
struct Morning {
    at: usize,
    lines: usize,
    accepted: usize,
    broken: usize,
    states: usize,
}

// What the text of a sheet of an accepted domain's agents comes to: so many states at the front of the levels where it is accepted, none
// where it is broken.
fn outcome_of<'a>(
    store: &'a [u8],
    supplement: &'a [u8],
    under: Under,
    text: &[u8],
    levels: &mut [i16],
) -> Result<Option<usize>, ReadError>
    requires { Few under.index.counts × (levels_size ≤ length levels.old) }
    ensures comes_to { (d : Domain) (s : List Replacement) → Speaks store.now supplement.now under d s
        → ComesTo (replaced s d) text.now levels.old result levels.new }
    ensures modest { Modest text.now result }
{
    let agents = under.index.counts.agents;
    let mut names = [0u8; Sheet::BYTES];
    let steps = sheet::read(text, agents, &mut names)?;
    let used = steps * agents;
    match judge::judge_found(store, supplement, under, &names[..used], levels) {
        Ok(judged) => match judged.verdict {
            Verdict::Accepted => Ok(Some(judged.states)),
            Verdict::Broken { .. } => Ok(None),
        },
        // An accepted domain and whole steps are not refused.
        Err(_) => Ok(None),
    }
}

// The sheet that begins where the report is: 19, then 18 of its text, then what the text comes to. Its states go after those kept, and
// stay there where it is accepted.
fn next_sheet<'a>(
    store: &'a [u8],
    input: &'a [u8],
    under: Under,
    m: Morning,
    levels: &mut [i16],
) -> Result<Morning, ReadError>
    requires { Ready under.index.counts input.now m levels.old }
    ensures next_is { (d : Domain) (s : List Replacement) (judged : List paper.Judged) → Speaks store.now [] under d s
        → Kept under.index.counts.fluents judged m levels.old
        → NextIs (replaced s d) under.index.counts.fluents input.now judged m result levels.new }
    ensures next_underway { NextUnderway input.now m result }
{
    let line = m.lines + 1;
    if m.accepted + m.broken == SHEETS {
        return Err(ReadError {
            refusal: Refusal::TooManySheets,
            line,
        });
    }
    let from = m.at + SHEET_BEGINS;
    let cut = line_starting(&input[from..], b"B000\n");
    if INPUT < cut.at {
        return Err(LONG_INPUT);
    }
    let to = from + cut.at;
    let kept = m.states * under.index.counts.fluents;
    let next = Morning {
        at: to,
        lines: line + cut.lines,
        ..m
    };
    match outcome_of(
        store,
        // An empty supplement changes nothing.
        &input[..0],
        under,
        &input[from..to],
        &mut levels[kept..],
    ) {
        Ok(Some(more)) => Ok(Morning {
            accepted: m.accepted + 1,
            states: m.states + more,
            ..next
        }),
        Ok(None) => Ok(Morning {
            broken: m.broken + 1,
            ..next
        }),
        Err(e) => Err(after(line, e)),
    }
}

// The sheets of an accepted domain, whose text ends where the first of them begins.
fn put_morning<'a>(
    store: &'a [u8],
    input: &'a [u8],
    under: Under,
    first: Cut,
    text: &mut Text,
) -> Result<(), ReadError>
    requires { Opened under.index.counts input.now first text.old }
    ensures { (d : Domain) (s : List Replacement) → Speaks store.now [] under d s
        → PutOr text.old (report_from (replaced s d) [] first.lines (lines_of (drop first.at input.now))) result text.new }
{
    let mut levels = [0i16; STATES];
    let mut m = Morning {
        at: first.at,
        lines: first.lines,
        accepted: 0,
        broken: 0,
        states: 0,
    };
    while m.at < input.len() {
        m = next_sheet(store, input, under, m, &mut levels)?;
    }
    text.sheets(m.accepted, m.broken);
    text.figures(&States {
        levels: &levels,
        fluents: under.index.counts.fluents,
        count: m.states,
    });
    Ok(())
}

// "The first refusal in input order": the domain's text, then its sheets in turn.
fn put_report(input: &[u8], text: &mut Text) -> Result<(), ReadError>
    requires { HasRoom text.old output_size }
    ensures { PutOr text.old (report.report input.now) result text.new }
{
    let first = line_starting(input, b"B000\n");
    let at = first.at;
    if INPUT < at {
        return Err(LONG_INPUT);
    }
    let mut store = [0u8; STORE];
    let found = domain::read_found(&input[..at], &mut store)?;
    put_morning(&store, input, alone(Ok(found.index)), first, text)
}

pub fn report(input: &[u8], out: &mut [u8]) -> usize
    ensures { record { count = result; buffer = out.new } ≡ answered (report.report input.now) out.old }
{
    printed(input, out, put_report)
}
