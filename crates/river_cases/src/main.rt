// Document 01's cases of domain P, through the code: for each sheet the levels written, then the verdict; and under supplements.
// It stands on `judge`.
#![tactic(auto)]

use bmap::{LEVELS, Refusal, Sheet};
use judge::{Judged, Verdict};
use std::io;
use std::io::Write;

// "A river of one pool", as the domain reader stores it.
const P: [u8; 91] = [
    0xA1, 1, 2, 0xA2, 6, 0, 0xC8, 1, 0x40, 1, 0x2C, 0xA3, 3, 0, 0, 3, 0xA4, 3, 1, 0, 1, 0xA4, 3, 2,
    0, 2, 0xA5, 8, 0, 0x24, 0x11, 0, 0, 0x10, 0, 0xDC, 0xA5, 8, 1, 0x24, 0x11, 0, 0, 0x10, 0, 0xDC,
    0xA6, 10, 0, 0x2A, 0, 0x13, 0x11, 0, 0, 0x10, 0, 14, 0xA6, 10, 1, 0x2A, 0, 0x13, 0x11, 0, 0,
    0x10, 0, 6, 0xA9, 7, 0x25, 0x11, 0, 0, 0x10, 1, 0x18, 0, 0, 0, 0, 0, 0, 0, 0, 0, 0, 0, 0,
];

// Law 4, P's goal, replaced by one that is always true.
const NO_GOAL: [u8; 5] = [0xAF, 3, 4, 0xA9, 0x2A];

// One step more than a sheet may have, of P's two agents.
const TOO_LONG: usize = (Sheet::STEPS + 1) * 2;

fn print_verdict<W: Write>(out: &mut W, verdict: Verdict) -> io::Result<()> {
    match verdict {
        Verdict::Accepted => write!(out, "accepted"),
        Verdict::Broken {
            fault,
            step,
            number,
        } => {
            let kind = fault.number();
            write!(out, "broken {kind} {step} {number} ")
        }
    }
}

// P has one fluent, so a state is one level.
fn print_judged<W: Write>(
    out: &mut W,
    levels: &[i16],
    answer: Result<Judged, Refusal>,
) -> io::Result<()> {
    match answer {
        Ok(judged) => {
            for level in levels.iter().take(judged.states) {
                write!(out, "{level} ")?;
            }
            print_verdict(out, judged.verdict)?;
        }
        Err(refusal) => {
            let number = refusal.number();
            write!(out, "refused {number} ")?;
        }
    }
    writeln!(out)
}

fn judged<W: Write>(out: &mut W, sheet: &[u8]) -> io::Result<()> {
    let mut levels = [0i16; LEVELS];
    let answer = judge::judge_counted(&P, sheet, &mut levels);
    print_judged(out, &levels, answer)
}

fn judged_under<W: Write>(out: &mut W, supplement: &[u8], sheet: &[u8]) -> io::Result<()> {
    let mut levels = [0i16; LEVELS];
    let answer = judge::judge_under_counted(&P, supplement, sheet, &mut levels);
    print_judged(out, &levels, answer)
}

fn main(rt: HostRuntime) -> io::Result<()> {
    let mut out = rt.stdout();
    let none: [u8; 0] = [];
    judged(&mut out, &none)?;
    judged(&mut out, &[1, 0])?;
    judged(&mut out, &[1, 0, 0, 2])?;
    judged(&mut out, &[1, 2])?;
    judged(&mut out, &[2, 0])?;
    judged(&mut out, &[9, 0])?;
    judged(&mut out, &[1, 0, 1, 0])?;
    judged(&mut out, &[1, 0, 1, 0, 1, 0, 1, 0, 1, 0, 1, 0])?;
    judged(&mut out, &[1, 0, 1, 0, 1, 0, 1, 0, 1, 0, 1, 0, 1, 0])?;
    judged(&mut out, &[1, 0, 1])?;
    judged(&mut out, &[0; TOO_LONG])?;
    judged_under(&mut out, &NO_GOAL, &[1, 0, 1, 0])?;
    judged_under(&mut out, &none, &[1, 0, 1, 0])?;
    judged_under(&mut out, &[1], &[1, 0, 1])
}
