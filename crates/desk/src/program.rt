// The programs' outputs.
ghost use Rattle.std.specs.Prelude.{◌≡◌};
ghost use Rattle.bmap.specs.Program as program;
ghost use Rattle.bmap.specs.Report as report;
ghost use Rattle.answer.specs.Answer.{answered};

// The bytes that the program writes for an input go to the front of the output; answers how many.
#[unsafe(no_mangle)]
pub extern "C" fn waroth_answer(input: &[u8], output: &mut [u8]) -> u64
    ensures { record { count = result; buffer = output.new } ≡ answered (program.output input.now) output.old }
{
    answer::answer(input, output) as u64
}

// The same of the program that takes a supplement.
#[unsafe(no_mangle)]
pub extern "C" fn waroth_low_water(input: &[u8], output: &mut [u8]) -> u64
    ensures { record { count = result; buffer = output.new } ≡ answered (program.low_water input.now) output.old }
{
    answer::low_water(input, output) as u64
}

// The same of the program over many sheets.
#[unsafe(no_mangle)]
pub extern "C" fn waroth_report(input: &[u8], output: &mut [u8]) -> u64
    ensures { record { count = result; buffer = output.new } ≡ answered (report.report input.now) output.old }
{
    answer::report(input, output) as u64
}
