// The history of a judgement, in rows: the states reached, each with room for the most fluents, and the marks of the step from
// it. Only where it is filled and copied out is the domain's own width met.
ghost use Rattle.std.specs.Prelude.{◌≡◌, ℕ, ◌+◌, ◌≤◌, ◌<◌, length, take, drop};
ghost use Rattle.std.proofs.Math.Seq.{paste};
ghost use Rattle.bmap.specs.Plain.{flat};
ghost use Rattle.bmap.specs.Limits.{most_fluents};
ghost use Rattle.bmap.specs.Buffer.{over};
ghost use Rattle.bmap.specs.Domain.{has};
ghost use Rattle.law.specs.Evaluate.{in_step};
ghost use Rattle.judge.specs.States.{starts_of, states_of, Movable, Copyable, Markable, Marking, Blank, marks_from};

use bmap::Counts;
use index::Fluent;
use law::{HISTORY, ROW};

// State 0: the start values.
pub(crate) fn put_start(fluents: &[Fluent], history: &mut [i16; HISTORY])
    requires { length fluents.now ≤ most_fluents }
    ensures state { take (length fluents.now) history.new ≡ starts_of fluents.now (length fluents.now) }
    ensures rest { drop (length fluents.now) history.new ≡ drop (length fluents.now) history.old }
{
    for (f, fluent) in fluents.iter().enumerate() {
        history[f] = fluent.start;
    }
}

// The levels of a row, moved to a place further to the front: as many as there may be, by way of an array of their own, so that
// the compiler takes them as one.
fn move_row(history: &mut [i16; HISTORY], from: usize, at: usize)
    requires { Movable from at }
    ensures { history.new ≡ paste history.old at (drop from history.old) most_fluents }
{
    let mut row = [0i16; Counts::FLUENTS];
    row.copy_from_slice(&history[from..from + Counts::FLUENTS]);
    history[at..at + Counts::FLUENTS].copy_from_slice(&row);
}

// "The levels buffer … receives the states reached, fluent by fluent"; "Numbers after them are untouched". No law is read
// any more: so the states are closed up in the history itself, each moved to just after the one before, and copied at once.
// The history comes whole, since n counts rows of it.
pub(crate) fn copy_states(history: &mut [i16; HISTORY], n: usize, w: usize, levels: &mut [i16])
    requires { Copyable n w levels.old }
    ensures { levels.new ≡ over (flat (states_of w n history.old)) levels.old }
{
    let mut at = 0;
    for k in 0..n {
        move_row(history, ROW * k, at);
        at += w;
    }
    levels[..at].copy_from_slice(&history[..at]);
}

// The marks of the step from state j, for the first n entries. Where none occurs nothing is done: nobody wrote there before.
pub(crate) fn mark_step(history: &mut [i16; HISTORY], j: usize, entries: u64, n: usize)
    requires { Markable j n }
    ensures kept { Marking j history.old history.new }
    ensures marks { Blank (marks_from j) history.old → (e : ℕ) → e < n → in_step history.new e (j + 1) ≡ has entries e }
{
    if entries == 0 {
        return;
    }
    let from = ROW * j + Counts::FLUENTS;
    let mut rest = entries;
    for i in 0..n {
        history[from + i] = i16::from(rest % 2 == 1);
        rest /= 2;
    }
}
