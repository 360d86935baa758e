// What a judgement answers; `kind_of` and `verdict_of` in specs/ give the paper's numbers.
ghost use Rattle.std.specs.Prelude.{◌≡◌};
ghost use Rattle.judge.specs.Answer.{kind_of};

use bmap::Reason;
use std::error::Error;
use std::fmt;

// What is at fault, with the paper's number of its kind.
#[derive(Debug, Clone, Copy, PartialEq, Eq)]
pub enum Fault {
    // an agent names an action but belongs to no occurring entry with that name
    Misplaced = 1,
    // an entry occurs, and none of its executability laws is true
    Barred = 2,
    // a concurrency law is false
    Concurrency = 3,
    // an effect law sets another value than an earlier one
    Conflict = 4,
    // a fluent leaves its range
    Range = 5,
    // a static law is false
    Static = 6,
    // a law has no value: a zero divisor
    ZeroDivisor = 7,
    // a goal law is false
    Goal = 8,
    // a law has no value: a result beyond the number range
    Beyond = 9,
    // a fluent changes by more than its limit
    TooFast = 10,
}

impl Fault {
    pub fn number(self) -> usize
        ensures { result ≡ kind_of self }
    {
        self as usize
    }
}

// "A zero divisor stays kind 7; a result beyond the number range becomes kind 9."
impl From<Reason> for Fault {
    ghost use Rattle.std.specs.Prelude.{◌≡◌};
    ghost use Rattle.bmap.specs.Judge.{trouble_kind};
    ghost use Rattle.judge.specs.Answer.{kind_of};

    ghost from_gives = { λ why fault. kind_of fault ≡ trouble_kind why };

    fn from(why: Reason) -> Fault {
        match why {
            Reason::ZeroDivisor => Fault::ZeroDivisor,
            Reason::OutOfRange => Fault::Beyond,
        }
    }
}

impl fmt::Display for Fault {
    ghost use Rattle.std.specs.Prelude.{Some};
    ghost use Rattle.judge.specs.Answer.{words_of};

    ghost output = { λ fault. Some (words_of fault) };

    fn fmt<W: fmt::Write>(&self, f: &mut fmt::Formatter<W>) -> fmt::Result {
        f.write_str(match self {
            Fault::Misplaced => "an agent belongs to no entry that it names",
            Fault::Barred => "no executability law of an entry is true",
            Fault::Concurrency => "a concurrency law is false",
            Fault::Conflict => "an effect law sets another value",
            Fault::Range => "a fluent leaves its range",
            Fault::Static => "a static law is false",
            Fault::ZeroDivisor => "a law divides by zero",
            Fault::Goal => "a goal law is false",
            Fault::Beyond => "a law leaves the number range",
            Fault::TooFast => "a fluent changes by more than its limit",
        })
    }
}

impl Error for Fault {}

// "A verdict is Accepted, or Broken with kind, step and number."
#[derive(Debug, Clone, Copy, PartialEq, Eq)]
pub enum Verdict {
    Accepted,
    Broken {
        fault: Fault,
        step: usize,
        number: usize,
    },
}

// A verdict, and how many states were reached: so many the levels buffer receives.
#[derive(Debug, Clone, Copy, PartialEq, Eq)]
pub struct Judged {
    pub verdict: Verdict,
    pub states: usize,
}

// What a check of a step finds: the first fault, and the number of the agent, entry, fluent or law at fault.
#[derive(Debug, Clone, Copy, PartialEq, Eq)]
pub struct Breach {
    pub fault: Fault,
    pub number: usize,
}
