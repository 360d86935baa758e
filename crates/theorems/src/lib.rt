// Theorems over the definitions alone, each held by a named clause of a function that does nothing: none of them can stand unproved.
// Their proofs are in proofs/; `supplement` cites those of lists by number, `answer` and `report` what is shown of states and reports.
#![tactic(auto)]

ghost use Rattle.bmap.specs.Cases.{AllHold, long_texts};
ghost use Rattle.bmap.specs.Theorems.{RestUnread, DivisionReturns, RemainderLeft, DivisionFixed, QuotientDown, DivisionValued, LookBackRead, ChangesKept};

// K1: the bytes after so many change no report; and the worked cases with long texts.
pub fn reports()
    ensures rest_unread { RestUnread }
    ensures long_texts { AllHold long_texts }
{}

// K3: dividend, quotient and remainder.
pub fn divisions()
    ensures returns { DivisionReturns }
    ensures left { RemainderLeft }
    ensures fixed { DivisionFixed }
    ensures down { QuotientDown }
    ensures valued { DivisionValued }
{}

// K4: what laws that look back read.
pub fn look_backs()
    ensures all_read { LookBackRead }
{}

// K6: the limits of a level's changes from state to state.
pub fn changes()
    ensures kept { ChangesKept }
{}
