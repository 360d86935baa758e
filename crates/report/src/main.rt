// The morning's figures: a domain's hex lines and those of its sheets, each begun by a line B000, from standard input; the count of
// sheets and each fluent's figures to standard output.
// What it writes is `answer`'s; here bytes only come and go.
#![tactic(auto)]

ghost use Rattle.std.specs.Prelude.{◌≡◌, ◌≤◌, length, OnOk, IfSome};
ghost use Rattle.std.specs.Io.KnownBytes.{Appends};
ghost use Rattle.bmap.specs.Limits.{report_input};
ghost use Rattle.bmap.specs.Report as program;
ghost use Rattle.answer.specs.Answer.{answered};
ghost use Rattle.answer.specs.Room.{output_size};

use answer::OUTPUT;
use bmap::REPORT_INPUT;
use std::io;
use std::io::{Read, Write};

// The program: what `answer` makes of an input.
struct Report;

impl console::Program for Report {
    ghost puts = { λ _ input buffer n left. record { count = n; buffer = left } ≡ answered (program.report input) buffer };

    fn put(&self, input: &[u8], buffer: &mut [u8]) -> usize {
        answer::report(input, buffer)
    }
}

// All of a reader's bytes, to a writer the output for them: which, where the reader says its bytes, is the program's promise.
fn figures<R: Read, W: Write>(
    from: &mut R,
    input: &mut [u8],
    out: &mut [u8],
    to: &mut W,
) -> io::Result<()>
    // What stands after these bytes cannot change the report, and stays unread: `RestUnread` of bmap/specs/Theorems, proved in `theorems`.
    requires taken { length input.old ≡ report_input }
    requires room { output_size ≤ length out.old }
    ensures { OnOk result (IfSome (R.remaining from.old) (λ bytes. Appends (W.contents to.old) (W.contents to.new) (program.report bytes))) }
{
    console::run(from, input, out, to, &Report)
}

fn main(rt: HostRuntime) -> io::Result<()> {
    let mut input = [0u8; REPORT_INPUT];
    let mut output = [0u8; OUTPUT];
    figures(&mut rt.stdin(), &mut input, &mut output, &mut rt.stdout())
}
