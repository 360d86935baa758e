// The checker: whether a tree stands at a place, and where it ends. A tree has to pass a test of what it names and where
// it looks back.
// "Prefix bytes, nested at most 16 deep": the depth left falls from each tree to its operands.
ghost use Rattle.std.specs.Prelude.{◌≡◌, ◌+◌, ◌≤◌, ◌<◌, length, take, drop};
ghost use Rattle.bmap.specs.Limits.{most_depth};
ghost use Rattle.bmap.specs.Tree.{allowed_e, allowed_c};
ghost use Rattle.bmap.specs.Code.{parse_e, parse_c};
ghost use Rattle.law.specs.Table.{rows};
ghost use Rattle.law.specs.Check.{checked_of, next_of, end_of, leaf_end, Test, Asks, law_size, Inner, expr_end, con_end, tree_end};

use crate::long::tree_in;
use crate::may::{allowed_in, back_passes, inside, leaf_passes};
use crate::table::{
    CONSTRAINT, EXPRESSION, EXPRESSIONS, NOTHING, Node, ONE_CONSTRAINT, ONE_EXPRESSION, PAIR, ROWS,
    follows, looks_back, opens, table,
};
use bmap::Context;

// Within the checker the place alone, in a register. A tree takes at least one byte, so place 0 means that none stands there that
// passes.
const REFUSED: usize = 0;

// The first n bytes of an array are the law's, with room for a frame. A slice, and an `Option` for the place, would go through memory
// at every node: twice the time of laws of mixed codes (`tree_in` reads what is longer so).
const LAW: usize = 128;

// The leaves, whose code stands at a place.
fn leaf_at<const WANTED: u8>(s: &[u8; LAW], n: usize, at: usize, may: u64, row: u8) -> usize
    requires few { n ≤ law_size }
    requires stands { at < n }
    ensures { (t : Test) → Asks may t → next_of result ≡ leaf_end WANTED t row at (drop (at + 1) (take n s.now)) }
{
    if n - at < 3 {
        return REFUSED;
    }
    if leaf_passes(may, WANTED, row, s[at + 1], s[at + 2]) {
        return at + 3;
    }
    REFUSED
}

#[cycle(constraint_in_expression_in_inner_in)]
fn expression_in(
    s: &[u8; LAW],
    n: usize,
    at: usize,
    depth: usize,
    may: u64,
    table: &[u8; ROWS],
) -> usize
    requires few { n ≤ law_size }
    requires whole { table.now ≡ rows }
    ensures { (t : Test) → Asks may t → next_of result ≡ expr_end t depth (take n s.now) at }
{
    if depth == 0 {
        return REFUSED;
    }
    if n <= at {
        return REFUSED;
    }
    let Node::Expression(row) = opens(table, s[at]) else {
        return REFUSED;
    };
    if follows(row) == PAIR {
        return leaf_at::<EXPRESSION>(s, n, at, may, row);
    }
    inner_in(s, n, at, depth, may, table, row)
}

// An expression that holds others: apart, so that a leaf costs its parent no call.
#[cycle(constraint_in_expression_in_inner_in)]
fn inner_in(
    s: &[u8; LAW],
    n: usize,
    at: usize,
    depth: usize,
    may: u64,
    table: &[u8; ROWS],
    row: u8,
) -> usize
    requires few { n ≤ law_size }
    requires whole { table.now ≡ rows }
    requires holds { Inner s.now n at depth row }
    ensures { (t : Test) → Asks may t → next_of result ≡ expr_end t depth (take n s.now) at }
{
    let operands = follows(row);
    if operands == ONE_CONSTRAINT {
        return constraint_in(s, n, at + 1, depth - 1, may, table);
    }
    let middle = expression_in(s, n, at + 1, depth - 1, may, table);
    if operands == ONE_EXPRESSION {
        return middle;
    }
    if middle == REFUSED {
        return REFUSED;
    }
    expression_in(s, n, middle, depth - 1, may, table)
}

#[cycle(constraint_in_expression_in_inner_in)]
fn constraint_in(
    s: &[u8; LAW],
    n: usize,
    at: usize,
    depth: usize,
    may: u64,
    table: &[u8; ROWS],
) -> usize
    requires few { n ≤ law_size }
    requires whole { table.now ≡ rows }
    ensures { (t : Test) → Asks may t → next_of result ≡ con_end t depth (take n s.now) at }
{
    if depth == 0 {
        return REFUSED;
    }
    if n <= at {
        return REFUSED;
    }
    let Node::Constraint(row) = opens(table, s[at]) else {
        return REFUSED;
    };
    let operands = follows(row);
    if operands == EXPRESSIONS {
        let middle = expression_in(s, n, at + 1, depth - 1, may, table);
        if middle == REFUSED {
            return REFUSED;
        }
        return expression_in(s, n, middle, depth - 1, may, table);
    }
    if operands == PAIR {
        return leaf_at::<CONSTRAINT>(s, n, at, may, row);
    }
    if operands == NOTHING {
        return at + 1;
    }
    if looks_back(row) {
        if back_passes(may) {
            return constraint_in(s, n, at + 1, depth - 1, inside(may), table);
        }
        return REFUSED;
    }
    let middle = constraint_in(s, n, at + 1, depth - 1, may, table);
    if operands == ONE_CONSTRAINT {
        return middle;
    }
    if middle == REFUSED {
        return REFUSED;
    }
    constraint_in(s, n, middle, depth - 1, may, table)
}

// The bytes of a law in the array.
fn copied(s: &[u8]) -> [u8; LAW]
    requires { length s.now ≤ law_size }
    ensures { take (length s.now) result ≡ s.now }
{
    let mut bytes = [0u8; LAW];
    bytes[..s.len()].copy_from_slice(s);
    bytes
}

// Where the tree at a place ends, an expression or a constraint by the sort that is wanted. What is longer than a frame is read where
// it stands.
pub(crate) fn tree_end<const WANTED: u8>(s: &[u8], at: usize, may: u64) -> Option<usize>
    ensures { (t : Test) → Asks may t → checked_of result ≡ tree_end WANTED t most_depth s.now at }
{
    if s.len() > LAW {
        return tree_in(s, at, bmap::DEPTH, may, WANTED);
    }
    let bytes = copied(s);
    // A copy of the table is asked faster than the table where it stands: long laws take 12 to 27 % less.
    let rows = *table();
    let end = if WANTED == CONSTRAINT {
        constraint_in(&bytes, s.len(), at, bmap::DEPTH, may, &rows)
    } else {
        expression_in(&bytes, s.len(), at, bmap::DEPTH, may, &rows)
    };
    if end == REFUSED {
        return None;
    }
    Some(end)
}

// An expression that a law may hold in this context: the place just after it.
pub fn check_expression(s: &[u8], at: usize, context: Context) -> Option<usize>
    ensures { checked_of result ≡ end_of (allowed_e context) at (parse_e most_depth (drop at s.now)) }
{
    tree_end::<EXPRESSION>(s, at, allowed_in(context))
}

// A constraint that a law may hold in this context.
pub fn check_constraint(s: &[u8], at: usize, context: Context) -> Option<usize>
    ensures { checked_of result ≡ end_of (allowed_c context) at (parse_c most_depth (drop at s.now)) }
{
    tree_end::<CONSTRAINT>(s, at, allowed_in(context))
}
