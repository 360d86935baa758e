// The evaluator: what the tree at a place gives at position j of a history. The history is lent as it is kept, in rows: the
// levels of a state, and for each entry 1 where it occurs in the step from that state, 0 where it does not.
ghost use Rattle.std.specs.Prelude.{◌≡◌, ◌+◌, ◌-◌, ◌≤◌, ◌<◌, leb, drop};
ghost use Rattle.bmap.specs.Plain.{both};
ghost use Rattle.bmap.specs.Limits.{most_depth, most_steps};
ghost use Rattle.bmap.specs.Number.{value};
ghost use Rattle.bmap.specs.Code.{two_bytes};
ghost use Rattle.law.specs.Table.{look_back_at};
ghost use Rattle.law.specs.Evaluate.{row_size, evaluated, meant, cell_at, in_step, leaf_of, NoLeaf, at_position, value_at, truth_at, so_far_at};
ghost use Rattle.law.specs.Packed.{evaluated_in, judged_in};

use crate::packed::{MALFORMED, end_of, truth_of, value_of, with_truth, with_value};
use crate::table::{
    EXPRESSIONS, NOTHING, Node, ONE_CONSTRAINT, ONE_EXPRESSION, PAIR, comparison, follows,
    joins_by, junction, looks_back, opens, operation, operator, single, table,
};
use bmap::{Counts, FRAME, Sheet};
use number::{Truth, Value};

// Room for the frames of the most laws: the bytes that trees are read from.
pub const HELD: usize = Counts::LAWS * FRAME;

// A row of the history, and room for those of the most steps and of state 0.
pub const ROW: usize = Counts::FLUENTS + Counts::ENTRIES;

pub const HISTORY: usize = (Sheet::STEPS + 1) * ROW;

// What stands in a column of a row; what was never written is 0.
fn cell(history: &[i16; HISTORY], row: usize, column: usize) -> i16
    requires row { row ≤ most_steps }
    requires column { column < row_size + 256 }
    ensures { result ≡ cell_at history.now row column }
{
    let at = ROW * row + column;
    if at < HISTORY { history[at] } else { 0 }
}

// "Lag t reads state j−t, or state 0 where j−t is negative."
fn level(history: &[i16; HISTORY], j: usize, f: u8, lag: u8) -> i16
    requires { j ≤ most_steps }
    ensures { result ≡ cell_at history.now (j - lag) f }
{
    cell(history, j.saturating_sub(lag as usize), f as usize)
}

// "Code 29 with lag t (0 to 63) looks at step j+1−t and is false before step 1."
fn occurs(history: &[i16; HISTORY], j: usize, e: u8, lag: u8) -> bool
    requires { j ≤ most_steps }
    ensures { result ≡ both (leb lag j) (in_step history.now e (j + 1 - lag)) }
{
    let t = lag as usize;
    if j < t {
        return false; // before step 1
    }
    1 <= cell(history, j - t, Counts::FLUENTS + e as usize)
}

// The leaves, whose code stands at a place: a constant, or a fluent and its lag.
fn leaf_in(s: &[u8; HELD], at: usize, history: &[i16; HISTORY], j: usize, row: u8) -> u64
    requires { j ≤ most_steps }
    ensures { evaluated_in result ≡ meant (λ v. v) at (two_bytes (leaf_of row history.now j) (drop (at + 1) s.now)) }
{
    if HELD - 2 <= at {
        return MALFORMED;
    }
    let z = if operator(row) == 0 {
        number::signed_word(s[at + 1], s[at + 2])
    } else {
        level(history, j, s[at + 1], s[at + 2])
    };
    with_value(Ok(z as i32), at + 3)
}

fn occurrence_in(s: &[u8; HELD], at: usize, history: &[i16; HISTORY], j: usize) -> u64
    requires { j ≤ most_steps }
    ensures { judged_in result ≡ meant (λ v. v) at (two_bytes (λ e t. value (both (leb t j) (in_step history.now e (j + 1 - t)))) (drop (at + 1) s.now)) }
{
    if HELD - 2 <= at {
        return MALFORMED;
    }
    with_truth(Ok(occurs(history, j, s[at + 1], s[at + 2])), at + 3)
}

// An expression with so much depth left. Most of a tree are leaves: this function is small enough to be put in place of its
// calls, and what is no leaf goes on with the row that was found.
#[cycle(inner_value_so_far_truth_in_value_in)]
fn value_in(s: &[u8; HELD], at: usize, depth: usize, history: &[i16; HISTORY], j: usize) -> u64
    requires { j ≤ most_steps }
    ensures { evaluated_in result ≡ value_at depth s.now at history.now j }
{
    if depth == 0 {
        return MALFORMED;
    }
    if HELD <= at {
        return MALFORMED;
    }
    let Node::Expression(row) = opens(table(), s[at]) else {
        return MALFORMED;
    };
    if follows(row) == PAIR {
        return leaf_in(s, at, history, j, row);
    }
    inner_value(s, at, depth, history, j, row)
}

// An expression that is no leaf, by its row.
#[cycle(inner_value_so_far_truth_in_value_in)]
fn inner_value(
    s: &[u8; HELD],
    at: usize,
    depth: usize,
    history: &[i16; HISTORY],
    j: usize,
    row: u8,
) -> u64
    requires position { j ≤ most_steps }
    requires holds { NoLeaf s.now at depth row }
    ensures { evaluated_in result ≡ value_at depth s.now at history.now j }
{
    let operands = follows(row);
    if operands == ONE_CONSTRAINT {
        let t = truth_in(s, at + 1, depth - 1, history, j);
        return with_value(number::reified(truth_of(t)), end_of(t));
    }
    let a = value_in(s, at + 1, depth - 1, history, j);
    if operands == ONE_EXPRESSION {
        return with_value(
            number::change(single(operator(row)), value_of(a)),
            end_of(a),
        );
    }
    let next = end_of(a);
    if next == 0 {
        return MALFORMED;
    }
    let b = value_in(s, next, depth - 1, history, j);
    let v = number::operate(operation(operator(row)), value_of(a), value_of(b));
    with_value(v, end_of(b))
}

// A constraint with so much depth left.
#[cycle(inner_value_so_far_truth_in_value_in)]
fn truth_in(s: &[u8; HELD], at: usize, depth: usize, history: &[i16; HISTORY], j: usize) -> u64
    requires { j ≤ most_steps }
    ensures { judged_in result ≡ truth_at depth s.now at history.now j }
{
    if depth == 0 {
        return MALFORMED;
    }
    if HELD <= at {
        return MALFORMED;
    }
    let Node::Constraint(row) = opens(table(), s[at]) else {
        return MALFORMED;
    };
    let operands = follows(row);
    if operands == EXPRESSIONS {
        let a = value_in(s, at + 1, depth - 1, history, j);
        let next = end_of(a);
        if next == 0 {
            return MALFORMED;
        }
        let b = value_in(s, next, depth - 1, history, j);
        let t = number::compare(comparison(operator(row)), value_of(a), value_of(b));
        return with_truth(t, end_of(b));
    }
    if operands == PAIR {
        return occurrence_in(s, at, history, j);
    }
    if operands == NOTHING {
        return with_truth(Ok(true), at + 1);
    }
    if looks_back(row) {
        return so_far(s, at + 1, depth - 1, history, j, operator(row));
    }
    let a = truth_in(s, at + 1, depth - 1, history, j);
    if operands == ONE_CONSTRAINT {
        return with_truth(number::negate(truth_of(a)), end_of(a));
    }
    let next = end_of(a);
    if next == 0 {
        return MALFORMED;
    }
    let b = truth_in(s, next, depth - 1, history, j);
    let t = number::join(junction(operator(row)), truth_of(a), truth_of(b));
    with_truth(t, end_of(b))
}

// 2B and 2C, by their number in the table: the constraint at every position from 0 to the present one. Each is read, and they are
// joined from the earliest on, as "and" and "or" join two sides.
#[cycle(inner_value_so_far_truth_in_value_in)]
fn so_far(s: &[u8; HELD], at: usize, depth: usize, history: &[i16; HISTORY], j: usize, n: u8) -> u64
    requires { j ≤ most_steps }
    ensures { judged_in result ≡ so_far_at (look_back_at n) depth s.now at history.now j }
{
    let mut all = truth_in(s, at, depth, history, 0);
    for i in 0..j {
        let here = truth_in(s, at, depth, history, i + 1);
        let t = number::join(joins_by(n), truth_of(all), truth_of(here));
        all = with_truth(t, end_of(here));
    }
    all
}

// The expression at a place, read at a position of the history: what it gives, and the place just after it. After the last position
// there is none.
pub fn expression_at(
    s: &[u8; HELD],
    at: usize,
    history: &[i16; HISTORY],
    j: usize,
) -> Option<(Value, usize)>
    ensures { evaluated result ≡ at_position j (value_at most_depth s.now at history.now j) }
{
    if Sheet::STEPS < j {
        return None;
    }
    let word = value_in(s, at, bmap::DEPTH, history, j);
    let end = end_of(word);
    if end == 0 {
        return None;
    }
    Some((value_of(word), end))
}

// The constraint at a place, read at such a position.
pub fn constraint_at(
    s: &[u8; HELD],
    at: usize,
    history: &[i16; HISTORY],
    j: usize,
) -> Option<(Truth, usize)>
    ensures { evaluated result ≡ at_position j (truth_at most_depth s.now at history.now j) }
{
    if Sheet::STEPS < j {
        return None;
    }
    let word = truth_in(s, at, bmap::DEPTH, history, j);
    let end = end_of(word);
    if end == 0 {
        return None;
    }
    Some((truth_of(word), end))
}
