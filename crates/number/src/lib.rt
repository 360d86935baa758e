// The operators of the law language on numbers and truths that may have no value, the two bytes of a value, and how far two values
// are apart.
// "Everything built on a part without value has none", and "the first trouble found is the one given": the left part's, else
// the right one's, else the operator's own. Each function answers for all its arguments, and asks nothing.
// `law` stands on it for its operators, `domain` and `judge` for values and their bytes.
#![tactic(auto)]

ghost use Rattle.std.specs.Prelude.{not, ◌≡◌, [], ◌∷◌, leb};
ghost use Rattle.bmap.specs.Number.{value, with1, with2, bounded, takes_sign, operate, change, compare, join, flag};
ghost use Rattle.bmap.specs.Number.{apart, signed_word, bytes_of};

use bmap::{Comparison, Junction, Operation, Reason, Single};

// What an expression gives, or why it gives nothing.
pub type Value = Result<i32, Reason>;

// What a constraint gives, or why it gives nothing.
pub type Truth = Result<bool, Reason>;

// The values that an expression may give.
pub struct Range {}

impl Range {
    pub const MOST: i64 = 1_000_000_000;

    pub const LEAST: i64 = -Range::MOST;
}

// "any result outside −1,000,000,000 to 1,000,000,000, gives no value". What is inside fits 32 bits, so what one
// operator makes of two numbers fits the 64 bits in which it is made.
#[tactic(auto, unfolding(bmap::specs::Number::bounded))]
fn kept(z: i64) -> Value
    ensures { result ≡ bounded z }
{
    if z < Range::LEAST || Range::MOST < z {
        return Err(Reason::OutOfRange);
    }
    Ok(z as i32)
}

// K3: "the remainder takes the divisor's sign or is 0"
fn takes_sign(r: i64, q: i64) -> bool
    ensures { result ≡ takes_sign r q }
{
    if q < 0 { r <= 0 } else { 0 <= r }
}

// K3: "The quotient is to be rounded down": `/` and `%` divide toward zero, so where what is left has the other sign the quotient
// is one less, and a divisor more is left. Both ways meet in one value before its range is asked, which compiles without a jump on
// a sign (docs/PERFORMANCE.md).
fn operated(op: Operation, x: i32, y: i32) -> Value
    ensures { result ≡ operate op x y }
{
    let p = x as i64;
    let q = y as i64;
    match op {
        Operation::Sum => kept(p + q),
        Operation::Difference => kept(p - q),
        Operation::Product => kept(p * q),
        Operation::Quotient => {
            if q == 0 {
                return Err(Reason::ZeroDivisor);
            }
            let t = p / q;
            kept(if takes_sign(p % q, q) { t } else { t - 1 })
        }
        Operation::Remainder => {
            if q == 0 {
                return Err(Reason::ZeroDivisor);
            }
            let r = p % q;
            kept(if takes_sign(r, q) { r } else { r + q })
        }
    }
}

pub fn operate(op: Operation, a: Value, b: Value) -> Value
    ensures { result ≡ with2 (operate op) a b }
{
    operated(op, a?, b?)
}

fn changed(op: Single, x: i32) -> Value
    ensures { result ≡ change op x }
{
    let p = x as i64;
    match op {
        Single::Negation => kept(-p),
        Single::Absolute => kept(p.abs()),
    }
}

pub fn change(op: Single, a: Value) -> Value
    ensures { result ≡ with1 (change op) a }
{
    changed(op, a?)
}

fn compared(op: Comparison, x: i32, y: i32) -> bool
    ensures { result ≡ compare op x y }
{
    match op {
        Comparison::Equal => x == y,
        Comparison::Unequal => x != y,
        Comparison::Less => x < y,
        Comparison::AtMost => x <= y,
        Comparison::Greater => x > y,
        Comparison::AtLeast => x >= y,
    }
}

pub fn compare(op: Comparison, a: Value, b: Value) -> Truth
    ensures { result ≡ with2 (λ x y. value (compare op x y)) a b }
{
    Ok(compared(op, a?, b?))
}

fn joined(op: Junction, x: bool, y: bool) -> bool
    ensures { result ≡ join op x y }
{
    match op {
        Junction::And => x && y,
        Junction::Or => x || y,
    }
}

// '"and" and "or" read both sides': one that is false or true already gives nothing where the other has no value.
pub fn join(op: Junction, a: Truth, b: Truth) -> Truth
    ensures { result ≡ with2 (λ x y. value (join op x y)) a b }
{
    Ok(joined(op, a?, b?))
}

pub fn negate(t: Truth) -> Truth
    ensures { result ≡ with1 (λ x. value (not x)) t }
{
    t.map(|x| !x)
}

// "reified constraint, 1 if true and 0 if false"
pub fn reified(t: Truth) -> Value
    ensures { result ≡ with1 (λ b. value (flag b)) t }
{
    t.map(i32::from)
}

// K6: whether a change is not "larger than the limit in either direction".
pub fn at_most_apart(old: i16, new: i16, limit: u16) -> bool
    ensures { result ≡ leb (apart old new) limit }
{
    new.abs_diff(old) <= limit
}

// "Two-byte numbers are high byte first", "values are two's complement".
pub fn signed_word(high: u8, low: u8) -> i16
    ensures { result ≡ signed_word high low }
{
    i16::from_be_bytes([high, low])
}

pub fn bytes_of(z: i16) -> [u8; 2]
    ensures { result ≡ (bytes_of z).high ∷ (bytes_of z).low ∷ [] }
{
    z.to_be_bytes()
}
