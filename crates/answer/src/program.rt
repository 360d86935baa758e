// The programs' functions, each from input bytes to output bytes.
ghost use Rattle.std.specs.Prelude.{◌≡◌, ℕ, List, [], map, ◌+◌, ◌^◌, ◌<◌, ◌≤◌, length};
ghost use Rattle.bmap.specs.Limits.{most_input};
ghost use Rattle.bmap.specs.Refusal.{got, read};
ghost use Rattle.bmap.specs.Line.{lines_of, decode};
ghost use Rattle.bmap.specs.Domain.{Domain, Names};
ghost use Rattle.bmap.specs.Store.{domain_in};
ghost use Rattle.bmap.specs.Sheet.{steps_from, sheet_of};
ghost use Rattle.bmap.specs.Supplement.{Replacement, replaced};
ghost use Rattle.bmap.specs.Judge as paper;
ghost use Rattle.bmap.specs.Program.{last_line, judged_text, judged_by, split, sheet_mark, output, answered_under, low_water};
ghost use Rattle.judge.specs.Answer.{verdict_of};
ghost use Rattle.answer.specs.Put.{Put, PutOr, HasRoom};
ghost use Rattle.answer.specs.Room.{last_room, output_size, Few};
ghost use Rattle.answer.specs.Speaks.{Speaks};
ghost use Rattle.answer.specs.Cut.{CutTwice, SheetIn};
ghost use Rattle.answer.specs.Answer.{answered};

use crate::cut::{Cut, line_starting};
use crate::print::{LAST_LINE, STATE_LINE, States, Text};
use bmap::{INPUT, LEVELS, ReadError, Refusal, STORE, SUPPLEMENT, Sheet};
use judge::Verdict;
use supplement::{Under, alone};

// Room for every output: the states of the longest sheet, each in a line of the most fluents, and the last line.
pub const OUTPUT: usize = (Sheet::STEPS + 1) * STATE_LINE + LAST_LINE;

pub(crate) const LONG_INPUT: ReadError = ReadError {
    refusal: Refusal::LongInput,
    line: 0,
};

// A refusal of a text that begins after so many lines of the input.
pub(crate) fn after(lines: usize, e: ReadError) -> ReadError
    requires { lines + e.line < 2 ^ 64 }
    ensures { result ≡ record { refusal = e.refusal; line = lines + e.line } }
{
    ReadError {
        refusal: e.refusal,
        line: lines + e.line,
    }
}

// What a program puts for its input, or the line that says what it refuses. A buffer shorter than OUTPUT is not written.
pub(crate) fn printed<F: Fn(&[u8], &mut Text) -> Result<(), ReadError>>(
    input: &[u8],
    out: &mut [u8],
    put: F,
) -> usize
    requires callable { (bytes : _) (text : _) → HasRoom text.now output_size → F.pre put bytes text }
    requires puts { (bytes : _) (text : _) (r : _) (left : _) → F.post put bytes text r left → (t : List ℕ) × PutOr text.now t r left.now }
    ensures { (f : List ℕ → List ℕ)
        → ((bytes : _) (text : _) (r : _) (left : _) → F.post put bytes text r left → PutOr text.now (f bytes.now) r left.now)
        → record { count = result; buffer = out.new } ≡ answered (f input.now) out.old }
{
    if out.len() < OUTPUT {
        return 0;
    }
    let mut text = Text { out, at: 0 };
    let put = put(input, &mut text);
    text.ended(put)
}

// "the last line is BROKEN kind step number"
fn put_verdict(text: &mut Text, verdict: Verdict)
    requires { HasRoom text.old last_room }
    ensures { Put text.old (last_line (verdict_of verdict)) text.new }
{
    match verdict {
        Verdict::Accepted => text.accepted(),
        Verdict::Broken {
            fault,
            step,
            number,
        } => text.broken(fault.number(), step, number),
    }
}

// A domain, a supplement of it, what was found of both, and a sheet of its agents' names: the states written, then the verdict.
fn put_judged<'a>(
    store: &'a [u8],
    supplement: &'a [u8],
    under: Under,
    sheet: &[u8],
    text: &mut Text,
)
    requires { Few under.index.counts × HasRoom text.old output_size }
    ensures { (d : Domain) (s : List Replacement) (steps : List Names)
        → Speaks store.now supplement.now under d s → sheet_of d.agents sheet.now ≡ got steps
        → Put text.old (judged_text (paper.judge (replaced s d) steps)) text.new }
{
    let mut levels = [0i16; LEVELS];
    // An accepted domain, a supplement of it and whole steps are not refused.
    if let Ok(judged) = judge::judge_found(store, supplement, under, sheet, &mut levels) {
        text.states(&States {
            levels: &levels,
            fluents: under.index.counts.fluents,
            count: judged.states,
        });
        put_verdict(text, judged.verdict);
    }
}

// The sheet's lines after so many of an accepted domain and its supplement, of which no frame is checked again.
fn put_sheet<'a>(
    store: &'a [u8],
    supplement: &'a [u8],
    under: Under,
    before: usize,
    sheet: &[u8],
    text: &mut Text,
) -> Result<(), ReadError>
    requires { ((before ≤ most_input) × (length sheet.now ≤ most_input) × HasRoom text.old output_size) × Few under.index.counts }
    ensures { (d : Domain) (s : List Replacement) → Speaks store.now supplement.now under d s
        → PutOr text.old (judged_by (replaced s d) before (steps_from d.agents [] (map decode (lines_of sheet.now)))) result text.new }
{
    let agents = under.index.counts.agents;
    let mut names = [0u8; Sheet::BYTES];
    match sheet::read(sheet, agents, &mut names) {
        Ok(steps) => {
            put_judged(store, supplement, under, &names[..steps * agents], text);
            Ok(())
        }
        Err(e) => Err(after(before, e)),
    }
}

// "18 comes before all others": where the sheet begins in any other input.
fn sheet_in(input: &[u8]) -> Result<Cut, ReadError>
    ensures { SheetIn input.now result }
{
    if INPUT < input.len() {
        return Err(LONG_INPUT);
    }
    Ok(line_starting(input, b"B1"))
}

// "the domain's refusals before the sheet's"
fn put_answer(input: &[u8], text: &mut Text) -> Result<(), ReadError>
    requires { HasRoom text.old output_size }
    ensures { PutOr text.old (output input.now) result text.new }
{
    let sheet = sheet_in(input)?;
    let at = sheet.at;
    let mut store = [0u8; STORE];
    let found = domain::read_found(&input[..at], &mut store)?;
    // An empty supplement changes nothing.
    put_sheet(
        &store,
        &input[..0],
        alone(Ok(found.index)),
        sheet.lines,
        &input[at..],
        text,
    )
}

// What follows the lines of an accepted domain in an input that is cut twice: the supplement's, then the sheet's.
fn put_under(
    store: &[u8],
    input: &[u8],
    supplement: Cut,
    sheet: Cut,
    text: &mut Text,
) -> Result<(), ReadError>
    requires { CutTwice input.now supplement sheet × HasRoom text.old output_size }
    ensures { (d : Domain) → domain_in store.now ≡ got d
        → PutOr text.old (answered_under (split sheet_mark (lines_of input.now)) (read d)) result text.new }
{
    let from = supplement.at;
    let to = sheet.at;
    let mut laws = [0u8; SUPPLEMENT];
    let reading = supplement::read_under(store, &input[from..to], &mut laws);
    match reading.answer {
        Ok(_) => put_sheet(store, &laws, reading.under, sheet.lines, &input[to..], text),
        Err(e) => Err(after(supplement.lines, e)),
    }
}

// The same of a domain's lines, a supplement's and a sheet's: the domain's refusals, the supplement's, the sheet's.
fn put_low_water(input: &[u8], text: &mut Text) -> Result<(), ReadError>
    requires { HasRoom text.old output_size }
    ensures { PutOr text.old (low_water input.now) result text.new }
{
    let sheet = sheet_in(input)?;
    let end = sheet.at;
    let supplement = line_starting(&input[..end], b"AF");
    let at = supplement.at;
    let mut store = [0u8; STORE];
    domain::read(&input[..at], &mut store)?;
    put_under(&store, input, supplement, sheet, text)
}

pub fn answer(input: &[u8], out: &mut [u8]) -> usize
    ensures { record { count = result; buffer = out.new } ≡ answered (output input.now) out.old }
{
    printed(input, out, put_answer)
}

pub fn low_water(input: &[u8], out: &mut [u8]) -> usize
    ensures { record { count = result; buffer = out.new } ≡ answered (low_water input.now) out.old }
{
    printed(input, out, put_low_water)
}
