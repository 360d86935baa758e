// The refusals of documents 01 and 02, their numbers and their words.
ghost use Rattle.std.specs.Prelude.{◌≡◌};
ghost use Rattle.bmap.specs.Refusal.{number_of};

use std::error::Error;
use std::fmt;

#[derive(Clone, Copy, Debug, PartialEq, Eq, Hash)]
pub enum Refusal {
    // character, odd or empty line, missing LF
    BadLine = 1,
    // no count byte, count over 120, or count not the bytes present
    BadCount = 2,
    // kind unknown, out of order, or not allowed here
    BadKind = 3,
    // payload not as described; agent count handed to the sheet reader not 1 to 16
    BadPayload = 4,
    // more of a kind, or more laws, than allowed
    TooMany = 5,
    // entry with name and mask of an earlier one
    Repeated = 6,
    // at the end: no A1, A2 or A4, or an entry without A5
    Incomplete = 7,
    // step not one byte per agent; sheet not whole steps
    NotWhole = 8,
    // a 65th step
    TooLong = 9,
    // buffer lent to be written shorter than named, or than the text to be written
    NoRoom = 10,
    // strike on an empty sheet, amend of a step not there
    NoStep = 11,
    // undo with no standing edit
    NothingStands = 12,
    // redo with no undone edit
    NothingUndone = 13,
    // 200 edits stand
    LogFull = 14,
    // store is not an accepted domain followed by zeros, or a supplement's not one accepted for the domain
    NotDomain = 15,
    // domain's number of agents differs from the session's
    OtherAgents = 16,
    // session closed, or not one that an accepted opening and calls after it could leave
    NotSession = 17,
    // the program's input is over 60,000 bytes, or in a report the domain's text or a sheet's
    LongInput = 18,
    // a 41st sheet in a report
    TooManySheets = 19,
    // law number not in the domain, a kind or entry that differs, or a law number given twice
    OtherLaw = 20,
}

impl Refusal {
    pub fn number(self) -> usize
        ensures { result ≡ number_of self }
    {
        self as usize
    }
}

impl fmt::Display for Refusal {
    ghost use Rattle.std.specs.Prelude.{Some};
    ghost use Rattle.bmap.specs.Refusal.{words_of};

    ghost output = { λ refusal. Some (words_of refusal) };

    fn fmt<W: fmt::Write>(&self, f: &mut fmt::Formatter<W>) -> fmt::Result {
        f.write_str(match self {
            Refusal::BadLine => "bad character, odd or empty line, or missing LF",
            Refusal::BadCount => "no count byte, count over 120, or count not the bytes present",
            Refusal::BadKind => "kind unknown, out of order, or not allowed here",
            Refusal::BadPayload => "payload not as described",
            Refusal::TooMany => "more of a kind, or more laws, than allowed",
            Refusal::Repeated => "entry with name and mask of an earlier one",
            Refusal::Incomplete => "no A1, A2 or A4, or an entry without A5",
            Refusal::NotWhole => "step not one byte per agent, or sheet not whole steps",
            Refusal::TooLong => "a 65th step",
            Refusal::NoRoom => "buffer too short",
            Refusal::NoStep => "strike on an empty sheet, or amend of a step not there",
            Refusal::NothingStands => "undo with no standing edit",
            Refusal::NothingUndone => "redo with no undone edit",
            Refusal::LogFull => "200 edits stand",
            Refusal::NotDomain =>
                "store is not an accepted domain followed by zeros, or not a supplement accepted for it",
            Refusal::OtherAgents => "domain's number of agents differs from the session's",
            Refusal::NotSession => "session closed, or not one that calls could leave",
            Refusal::LongInput => "input over 60,000 bytes",
            Refusal::TooManySheets => "a 41st sheet in a report",
            Refusal::OtherLaw =>
                "law number not in the domain or given twice, or another kind or entry",
        })
    }
}

impl Error for Refusal {}

// What a reader of lines refuses, and the line that it is refused for, from 1; 0 where it is for none.
#[derive(Clone, Copy, Debug, PartialEq, Eq, Hash)]
pub struct ReadError {
    pub refusal: Refusal,
    pub line: usize,
}

impl fmt::Display for ReadError {
    ghost use Rattle.std.specs.Prelude.{◌++◌, codes, Some};
    ghost use Rattle.std.specs.Fmt.{decimal};
    ghost use Rattle.bmap.specs.Refusal.{words_of};

    ghost output = { λ e. Some (codes "line " ++ decimal e.line ++ codes ": " ++ words_of e.refusal) };

    fn fmt<W: fmt::Write>(&self, f: &mut fmt::Formatter<W>) -> fmt::Result {
        write!(f, "line {}: {}", self.line, self.refusal)
    }
}

impl Error for ReadError {}
