// The lines of a sheet, to the names step after step.
ghost use Rattle.std.specs.Prelude.{◌≡◌, ◌*◌, ◌<◌, ◌≤◌, IfOk, length, take};
ghost use Rattle.bmap.specs.Limits.{most_agents, most_steps, sheet_size};
ghost use Rattle.bmap.specs.Sheet.{read_sheet};
ghost use Rattle.sheet.specs.Answer.{reading_of};
ghost use Rattle.sheet.specs.Step.{outcome, counted, names_in, NextIs};

use crate::agents_known;
use crate::writer::line_size;
use bmap::{FRAME, Kind, ReadError, Refusal, Sheet};
use line::{read_line, read_payload, zero_from};

// The names step after step, zeros after, and the number of steps.
pub fn read(text: &[u8], agents: usize, buffer: &mut [u8]) -> Result<usize, ReadError>
    ensures answer { reading_of result ≡ (read_sheet agents text.now buffer.old).answer }
    ensures buffer { buffer.new ≡ (read_sheet agents text.now buffer.old).buffer }
{
    if buffer.len() < Sheet::BYTES {
        return Err(ReadError {
            refusal: Refusal::NoRoom,
            line: 0,
        });
    }
    if !agents_known(agents) {
        buffer.fill(0);
        return Err(ReadError {
            refusal: Refusal::BadPayload,
            line: 0,
        });
    }
    let answer = read_steps(text, agents, buffer);
    match answer {
        Ok(steps) => zero_from(buffer, steps * agents),
        Err(_) => buffer.fill(0),
    }
    answer
}

// The lines in turn, each a step: as many, and their names at the front of the buffer.
fn read_steps(text: &[u8], agents: usize, buffer: &mut [u8]) -> Result<usize, ReadError>
    requires agents { agents ≤ most_agents }
    requires room { sheet_size ≤ length buffer.old }
    ensures answer { reading_of result ≡ counted (outcome agents text.now) }
    ensures most { IfOk result (λ steps. steps ≤ most_steps) }
    ensures names { IfOk result (λ steps. take (steps * agents) buffer.new ≡ names_in (outcome agents text.now)) }
{
    let mut rest = text;
    let mut steps = 0;
    'lines: loop {
        match next_step(rest, agents, steps, &mut buffer[steps * agents..]) {
            Ok(None) => return Ok(steps),
            Ok(Some(characters)) => {
                steps += 1;
                rest = &rest[characters..];
            }
            Err(refusal) => {
                return Err(ReadError {
                    refusal,
                    line: steps + 1,
                });
            }
        }
    }
}

// The first line after so many steps, if one is left: a step of so many characters, its names at the front of `names`, where
// they go straight from their digits.
fn next_step(
    rest: &[u8],
    agents: usize,
    steps: usize,
    names: &mut [u8],
) -> Result<Option<usize>, Refusal>
    requires agents { agents ≤ most_agents }
    requires room { steps < most_steps → agents ≤ length names.old }
    ensures { NextIs agents steps rest.now names.new result }
{
    if steps < Sheet::STEPS && read_payload(rest, Kind::STEP, &mut names[..agents]) {
        return Ok(Some(line_size(agents)));
    }
    let mut frame = [0; FRAME];
    let Some(_) = read_line(rest, &mut frame)? else {
        return Ok(None);
    };
    if frame[0] != Kind::STEP {
        return Err(Refusal::BadKind);
    }
    if steps >= Sheet::STEPS {
        return Err(Refusal::TooLong);
    }
    Err(Refusal::NotWhole)
}
