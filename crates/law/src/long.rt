// The checker for what is longer than a frame, and so in no domain: every slice has its answer. One function for both sorts of
// tree, since a row says of which sort the operands are.
ghost use Rattle.std.specs.Prelude.{◌≡◌};
ghost use Rattle.bmap.specs.Code.{code_of};
ghost use Rattle.law.specs.Table.{opened};
ghost use Rattle.law.specs.Check.{checked_of, Test, Asks, row_for, tree_end};

use crate::may::{back_passes, inside, leaf_passes};
use crate::table::{
    CONSTRAINT, NOTHING, Node, PAIR, count, follows, looks_back, opens, pair_after, sort, table,
};

// The row of what opens a tree of the sort that is wanted.
fn row_for(code: u8, wanted: u8) -> Option<u8>
    ensures { result ≡ row_for wanted (opened (code_of code)) }
{
    match opens(table(), code) {
        Node::Expression(row) if wanted != CONSTRAINT => Some(row),
        Node::Constraint(row) if wanted == CONSTRAINT => Some(row),
        _ => None,
    }
}

pub(crate) fn tree_in(s: &[u8], at: usize, depth: usize, may: u64, wanted: u8) -> Option<usize>
    ensures { (t : Test) → Asks may t → checked_of result ≡ tree_end wanted t depth s.now at }
{
    if depth == 0 {
        return None;
    }
    if s.len() <= at {
        return None;
    }
    let row = row_for(s[at], wanted)?;
    if follows(row) == NOTHING {
        return Some(at + 1);
    }
    if follows(row) == PAIR {
        let (a, b) = pair_after(s, at)?;
        if leaf_passes(may, wanted, row, a, b) {
            return Some(at + 3);
        }
        return None;
    }
    if looks_back(row) {
        if back_passes(may) {
            return tree_in(s, at + 1, depth - 1, inside(may), CONSTRAINT);
        }
        return None;
    }
    let operands = sort(row);
    let middle = tree_in(s, at + 1, depth - 1, may, operands);
    if count(row) == 1 {
        return middle;
    }
    tree_in(s, middle?, depth - 1, may, operands)
}
