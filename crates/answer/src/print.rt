// Numbers and lines as text. `write!` would do as well, but its answer may be an error whatever room is left, and here nothing fails.
ghost use Rattle.std.specs.Prelude.{◌≡◌, ℕ, ◌+◌, ◌*◌, ◌≤◌, List, ◌∷◌, [], map, length, OnErr};
ghost use Rattle.std.proofs.lemmas.List.Edits.{sets};
ghost use Rattle.bmap.specs.Plain.{text};
ghost use Rattle.bmap.specs.Limits.{most_steps};
ghost use Rattle.bmap.specs.Refusal.{number_of};
ghost use Rattle.bmap.specs.Program.{decimal, decimal_z, spaced, line_of, state_lines, refused_text};
ghost use Rattle.answer.specs.declared.print.Text.{Text};
ghost use Rattle.answer.specs.Put.{Put, PutOr, HasRoom};
ghost use Rattle.answer.specs.States.{rows_of, Held};
ghost use Rattle.answer.specs.Room.{number_room, level_room, state_room, states_room, accepted_room, last_room, pair_room, refused_room, sheets_room};

use crate::cut::LINE_FEED;
use bmap::{Counts, ReadError};

// A number's room: a space and the digits of 64 bits.
const NUMBER: usize = 1 + 20;

// A level's: a space, the sign and the digits of 16 bits.
const LEVEL: usize = 1 + 1 + 5;

// "S", the number of a state, the levels of the most fluents, LF.
pub(crate) const STATE_LINE: usize = 1 + NUMBER + LEVEL * Counts::FLUENTS + 1;

// "BROKEN", three numbers, LF: no last line is longer.
pub(crate) const LAST_LINE: usize = 6 + 3 * NUMBER + 1;

// The states at the front of a levels buffer: so many, each of a level for each fluent.
#[derive(Clone, Copy)]
pub(crate) struct States<'a> {
    pub(crate) levels: &'a [i16],
    pub(crate) fluents: usize,
    pub(crate) count: usize,
}

// A buffer, and the place where the next byte goes.
#[derive(Drop)]
pub(crate) struct Text<'a> {
    pub(crate) out: &'a mut [u8],
    pub(crate) at: usize,
}

// The decimal digits of n from a place of a buffer on, and the place after them. No method of Text: as a number that is handed on the place
// stands in a register, where behind a reference it is stored and read again for each digit (docs/PERFORMANCE.md).
fn put_digits(out: &mut [u8], at: usize, n: usize) -> usize
    requires { at + length (decimal n) ≤ length out.old }
    ensures place { result ≡ at + length (decimal n) }
    ensures bytes { out.new ≡ sets out.old at (decimal n) }
{
    if n < 10 {
        out[at] = b'0' + n as u8;
        return at + 1;
    }
    let last = put_digits(out, at, n / 10);
    out[last] = b'0' + (n % 10) as u8;
    last + 1
}

impl Text<'_> {
    pub(crate) fn byte(&mut self, c: u8)
        requires { HasRoom self.old 1 }
        ensures { Put self.old (c ∷ []) self.new }
    {
        self.out[self.at] = c;
        self.at += 1;
    }

    // Bytes as they are.
    fn word(&mut self, word: &[u8])
        requires { HasRoom self.old (length word.now) }
        ensures { Put self.old word.now self.new }
    {
        let end = self.at + word.len();
        self.out[self.at..end].copy_from_slice(word);
        self.at = end;
    }

    // The decimal digits of n.
    fn digits(&mut self, n: usize)
        requires { HasRoom self.old (length (decimal n)) }
        ensures { Put self.old (decimal n) self.new }
    {
        self.at = put_digits(self.out, self.at, n);
    }

    // A space, and the decimal digits of a number.
    pub(crate) fn number(&mut self, n: usize)
        requires { HasRoom self.old number_room }
        ensures put { Put self.old (spaced (decimal n ∷ [])) self.new }
        ensures upper_bound { self.new.at ≤ self.old.at + number_room }
    {
        self.byte(b' ');
        self.digits(n);
    }

    // A space, and a number with its sign.
    pub(crate) fn signed(&mut self, n: isize)
        requires { HasRoom self.old (length (spaced (decimal_z n ∷ []))) }
        ensures put { Put self.old (spaced (decimal_z n ∷ [])) self.new }
        ensures upper_bound { self.new.at ≤ self.old.at + number_room }
    {
        self.byte(b' ');
        if n < 0 {
            self.byte(b'-');
        }
        self.digits(n.unsigned_abs());
    }

    // Levels, each after a space.
    fn levels(&mut self, levels: &[i16])
        requires { HasRoom self.old (level_room * length levels.now) }
        ensures put { Put self.old (spaced (map decimal_z levels.now)) self.new }
        ensures upper_bound { self.new.at ≤ self.old.at + level_room * length levels.now }
    {
        for &level in levels {
            self.signed(isize::from(level));
        }
    }

    // "S", the number of a state and its levels.
    fn state(&mut self, k: usize, levels: &[i16])
        requires { HasRoom self.old (state_room (length levels.now)) }
        ensures put { Put self.old (line_of (text "S") (decimal k ∷ map decimal_z levels.now)) self.new }
        ensures upper_bound { self.new.at ≤ self.old.at + state_room (length levels.now) }
    {
        self.byte(b'S');
        self.number(k);
        self.levels(levels);
        self.byte(LINE_FEED);
    }

    // One line for each state.
    pub(crate) fn states(&mut self, states: &States)
        requires { Held states.now × (states.now.count ≤ most_steps + 1) × HasRoom self.old (states_room states.now.count) }
        ensures put { Put self.old (state_lines 0 (rows_of states.now)) self.new }
        ensures upper_bound { self.new.at ≤ self.old.at + states_room states.now.count }
    {
        for k in 0..states.count {
            let from = k * states.fluents;
            self.state(k, &states.levels[from..from + states.fluents]);
        }
    }

    pub(crate) fn accepted(&mut self)
        requires { HasRoom self.old accepted_room }
        ensures { Put self.old (line_of (text "ACCEPTED") []) self.new }
    {
        self.word(b"ACCEPTED\n");
    }

    pub(crate) fn broken(&mut self, kind: usize, step: usize, number: usize)
        requires { HasRoom self.old last_room }
        ensures { Put self.old (line_of (text "BROKEN") (decimal kind ∷ decimal step ∷ decimal number ∷ [])) self.new }
    {
        self.word(b"BROKEN");
        self.number(kind);
        self.number(step);
        self.number(number);
        self.byte(LINE_FEED);
    }

    // A line of a word and two numbers.
    fn pair(&mut self, word: &[u8], first: usize, second: usize)
        requires { HasRoom self.old (pair_room (length word.now)) }
        ensures put { Put self.old (line_of word.now (decimal first ∷ decimal second ∷ [])) self.new }
        ensures upper_bound { self.new.at ≤ self.old.at + pair_room (length word.now) }
    {
        self.word(word);
        self.number(first);
        self.number(second);
        self.byte(LINE_FEED);
    }

    pub(crate) fn refused(&mut self, e: ReadError)
        requires { HasRoom self.old refused_room }
        ensures { Put self.old (refused_text (number_of e.refusal) e.line) self.new }
    {
        self.pair(b"REFUSED", e.refusal.number(), e.line);
    }

    // What is put of a program's text, and where that is refused, the line that says so: how long it is.
    pub(crate) fn ended(&mut self, put: Result<(), ReadError>) -> usize
        requires { OnErr put (HasRoom self.old refused_room) }
        ensures put { (start : Text) (text : List ℕ) → PutOr start text put self.old → Put start text self.new }
        ensures count { result ≡ self.new.at }
    {
        if let Err(e) = put {
            self.refused(e);
        }
        self.at
    }

    // "a line SHEETS with the count of accepted and of broken sheets"
    pub(crate) fn sheets(&mut self, accepted: usize, broken: usize)
        requires { HasRoom self.old sheets_room }
        ensures put { Put self.old (line_of (text "SHEETS") (decimal accepted ∷ decimal broken ∷ [])) self.new }
        ensures upper_bound { self.new.at ≤ self.old.at + sheets_room }
    {
        self.pair(b"SHEETS", accepted, broken);
    }
}
