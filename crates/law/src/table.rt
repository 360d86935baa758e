// "The number of operands of each code is kept as one table, code by code": what the operands of a code are, how many there
// are, and which operator is made of them. The checker, the evaluator and the search for fluents take the three from a row,
// the leaves 10, 11 and 29 too, and look at no code a second time. Sort and count are asked in one, so that no code passes by its
// sort alone.
ghost use Rattle.std.specs.Prelude.{◌≡◌, ◌+◌, ◌≤◌, ◌<◌, drop};
ghost use Rattle.bmap.specs.Code.{code_of};
ghost use Rattle.law.specs.Table.{opened, pair_of, row_of, rows, follows_in, sort_in, count_in, operator_in, looks_back_in, operation_at, single_at, comparison_at, junction_at, look_back_at};

use bmap::{Comparison, Junction, Operation, Single};

// What a code byte opens, with its row: one decision among three, which an `Option` around two would ask in two steps.
#[derive(Clone, Copy, Debug, PartialEq, Eq)]
pub enum Node {
    Expression(u8),
    Constraint(u8),
    Refused,
}

// What the operands are: bytes, expressions or constraints.
pub(crate) const BYTES: u8 = 1;

pub(crate) const EXPRESSION: u8 = 2;

pub(crate) const CONSTRAINT: u8 = 3;

// How many.
const ONE: u8 = 4;

const TWO: u8 = 8;

// The two in one, as they occur.
pub(crate) const NOTHING: u8 = 0;

pub(crate) const PAIR: u8 = BYTES + TWO;

pub(crate) const ONE_EXPRESSION: u8 = EXPRESSION + ONE;

pub(crate) const EXPRESSIONS: u8 = EXPRESSION + TWO;

pub(crate) const ONE_CONSTRAINT: u8 = CONSTRAINT + ONE;

const CONSTRAINTS: u8 = CONSTRAINT + TWO;

// A step from an operator's number to the next.
const NEXT: u8 = 16;

// From number 8 on a code looks back, so that one test of its row finds it.
const BACK: u8 = 8 * NEXT;

const FIRST: u8 = 0x10;

pub(crate) const ROWS: usize = 32;

// Code by code, from the first. A row is one number, so that a call takes it in a register: what is no leaf goes on with its row.
const TABLE: [u8; ROWS] = [
    PAIR, // 10 constant
    PAIR + NEXT, // 11 fluent, lag
    EXPRESSIONS, // 12 sum
    EXPRESSIONS + NEXT, // 13 difference
    EXPRESSIONS + 2 * NEXT, // 14 product
    EXPRESSIONS + 3 * NEXT, // 15 quotient
    EXPRESSIONS + 4 * NEXT, // 16 remainder
    ONE_EXPRESSION, // 17 negation
    ONE_EXPRESSION + NEXT, // 18 absolute value
    ONE_CONSTRAINT, // 19 reified constraint
    0, // 1A no code
    0, // 1B no code
    0, // 1C no code
    0, // 1D no code
    0, // 1E no code
    0, // 1F no code
    EXPRESSIONS, // 20 =
    EXPRESSIONS + NEXT, // 21 ≠
    EXPRESSIONS + 2 * NEXT, // 22 <
    EXPRESSIONS + 3 * NEXT, // 23 ≤
    EXPRESSIONS + 4 * NEXT, // 24 >
    EXPRESSIONS + 5 * NEXT, // 25 ≥
    CONSTRAINTS, // 26 and
    CONSTRAINTS + NEXT, // 27 or
    ONE_CONSTRAINT, // 28 not
    PAIR, // 29 entry, lag
    NOTHING, // 2A true
    ONE_CONSTRAINT + BACK, // 2B at every position so far
    ONE_CONSTRAINT + BACK + NEXT, // 2C at one or more of them
    0, // 2D no code
    0, // 2E no code
    0, // 2F no code
];

// The table where it stands.
pub(crate) fn table() -> &'static [u8; ROWS]
    ensures { result.now ≡ rows }
{
    &TABLE
}

// The row of a code of the table.
fn row_of(table: &[u8; ROWS], code: u8) -> u8
    requires whole { table.now ≡ rows }
    requires from_first { 0x10 ≤ code }
    requires to_last { code < 0x30 }
    ensures { result ≡ row_of (code_of code) }
{
    table[(code - FIRST) as usize]
}

// "Every other code from 00 to FF is refused."
pub(crate) fn opens(table: &[u8; ROWS], code: u8) -> Node
    requires { table.now ≡ rows }
    ensures { result ≡ opened (code_of code) }
{
    match code {
        0x10..=0x19 => Node::Expression(row_of(table, code)),
        0x20..=0x2C => Node::Constraint(row_of(table, code)),
        _ => Node::Refused,
    }
}

// What follows the code: of what sort, and how many.
pub(crate) fn follows(row: u8) -> u8
    ensures { result ≡ follows_in row }
{
    row % 16
}

pub(crate) fn sort(row: u8) -> u8
    ensures { result ≡ sort_in row }
{
    row % 4
}

pub(crate) fn count(row: u8) -> u8
    ensures { result ≡ count_in row }
{
    row / 4 % 4
}

pub(crate) fn operator(row: u8) -> u8
    ensures { result ≡ operator_in row }
{
    row / 16
}

// The operators by the number that a row has.
pub(crate) fn operation(n: u8) -> Operation
    ensures { result ≡ operation_at n }
{
    match n {
        0 => Operation::Sum,
        1 => Operation::Difference,
        2 => Operation::Product,
        3 => Operation::Quotient,
        _ => Operation::Remainder,
    }
}

pub(crate) fn single(n: u8) -> Single
    ensures { result ≡ single_at n }
{
    match n {
        0 => Single::Negation,
        _ => Single::Absolute,
    }
}

pub(crate) fn comparison(n: u8) -> Comparison
    ensures { result ≡ comparison_at n }
{
    match n {
        0 => Comparison::Equal,
        1 => Comparison::Unequal,
        2 => Comparison::Less,
        3 => Comparison::AtMost,
        4 => Comparison::Greater,
        _ => Comparison::AtLeast,
    }
}

pub(crate) fn junction(n: u8) -> Junction
    ensures { result ≡ junction_at n }
{
    match n {
        0 => Junction::And,
        _ => Junction::Or,
    }
}

// 2B and 2C.
pub(crate) fn looks_back(row: u8) -> bool
    ensures { result ≡ looks_back_in row }
{
    BACK <= row
}

// By what they join the positions that they look at.
pub(crate) fn joins_by(n: u8) -> Junction
    ensures { result ≡ look_back_at n }
{
    junction(n % 8)
}

// The two bytes after the code at a place.
pub(crate) fn pair_after(s: &[u8], at: usize) -> Option<(u8, u8)>
    ensures { result ≡ pair_of (drop (at + 1) s.now) }
{
    if s.len().saturating_sub(at) < 3 {
        return None;
    }
    Some((s[at + 1], s[at + 2]))
}
