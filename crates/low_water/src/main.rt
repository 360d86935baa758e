// The sheet judge in low water: a domain's hex lines, those of a supplement and a sheet's from standard input; the states reached and the
// verdict under the laws in force to standard output.
// What it writes is `answer`'s; here bytes only come and go.
#![tactic(auto)]

ghost use Rattle.std.specs.Prelude.{◌≡◌, ◌+◌, ◌≤◌, length, OnOk, IfSome};
ghost use Rattle.std.specs.Io.KnownBytes.{Appends};
ghost use Rattle.bmap.specs.Limits.{most_input};
ghost use Rattle.bmap.specs.Program as program;
ghost use Rattle.answer.specs.Answer.{answered};
ghost use Rattle.answer.specs.Room.{output_size};

use answer::OUTPUT;
use bmap::INPUT;
use std::io;
use std::io::{Read, Write};

// The program: what `answer` makes of an input.
struct LowWater;

impl console::Program for LowWater {
    ghost puts = { λ _ input buffer n left. record { count = n; buffer = left } ≡ answered (program.low_water input) buffer };

    fn put(&self, input: &[u8], buffer: &mut [u8]) -> usize {
        answer::low_water(input, buffer)
    }
}

// All of a reader's bytes, to a writer the output for them: which, where the reader says its bytes, is the program's promise.
fn judge<R: Read, W: Write>(
    from: &mut R,
    input: &mut [u8],
    out: &mut [u8],
    to: &mut W,
) -> io::Result<()>
    // One byte past the limit shows that it is passed.
    requires taken { length input.old ≡ most_input + 1 }
    requires room { output_size ≤ length out.old }
    ensures { OnOk result (IfSome (R.remaining from.old) (λ bytes. Appends (W.contents to.old) (W.contents to.new) (program.low_water bytes))) }
{
    console::run(from, input, out, to, &LowWater)
}

fn main(rt: HostRuntime) -> io::Result<()> {
    let mut input = [0u8; INPUT + 1];
    let mut output = [0u8; OUTPUT];
    judge(&mut rt.stdin(), &mut input, &mut output, &mut rt.stdout())
}
