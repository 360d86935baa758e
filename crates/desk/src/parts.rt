// The numbers by which the calls answer.
ghost use Rattle.std.specs.Prelude.{◌≡◌};
ghost use Rattle.bmap.specs.Refusal.{number_of};
ghost use Rattle.line.specs.Write as write;
ghost use Rattle.line.specs.Read.{reading_of};
ghost use Rattle.session.specs.Calls.{answer_of};
ghost use Rattle.desk.specs.Numbers.{found_number, refused_number, read_number, written_number, done_number};

use bmap::{ReadError, Refusal};

// A refusal's number stands in the upper half of an answer.
const HALF: u64 = 1 << 32;

// What is found stands below this bit, which only a refusal has set: a caller who keeps the lower half cannot mistake one.
const MARK: u64 = 1 << 31;

// Where the bytes of what is found begin, from the fourth down.
pub(crate) const FOURTH: u64 = 1 << 24;

pub(crate) const THIRD: u64 = 1 << 16;

pub(crate) const SECOND: u64 = 1 << 8;

// Nothing is refused.
pub(crate) fn counted(count: usize) -> u64
    ensures { result ≡ found_number count }
{
    count as u64 % MARK
}

// A refusal that has no line: its number goes with it.
pub(crate) fn refused_alone(why: Refusal) -> u64
    ensures { result ≡ refused_number (number_of why) (number_of why) }
{
    refused(why, why.number() as u64)
}

// A refusal, and what goes with it.
pub(crate) fn refused(why: Refusal, with: u64) -> u64
    ensures { result ≡ refused_number (number_of why) with }
{
    why.number() as u64 * HALF + (MARK + with % MARK)
}

// What a reader of lines answers.
pub(crate) fn read(answer: Result<usize, ReadError>) -> u64
    ensures { result ≡ read_number (reading_of answer) }
{
    match answer {
        Ok(count) => counted(count),
        Err(error) => refused(error.refusal, error.line as u64),
    }
}

// What a writer answers.
pub(crate) fn written(answer: Result<usize, Refusal>) -> u64
    ensures { result ≡ written_number (write.answer_of answer) }
{
    match answer {
        Ok(count) => counted(count),
        Err(why) => refused(why, 0),
    }
}

// What a call on a session answers.
pub(crate) fn done(outcome: Result<(), Refusal>) -> u64
    ensures { result ≡ done_number (answer_of outcome) }
{
    match outcome {
        Ok(()) => 0,
        Err(why) => refused_alone(why),
    }
}
