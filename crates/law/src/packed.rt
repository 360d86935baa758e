// An answer of the evaluator in one word, which stays in a register: a value and a place in an `Option` would go through memory at
// every node, 9 to 18 % of a long law.
// From the top: the place just after the tree, one bit that says whether there is a value, and 32 bits of it, or of why there
// is none. A tree takes at least one byte, so place 0 means that none stands there.
ghost use Rattle.std.specs.Prelude.{◌≡◌, ◌<◌};
ghost use Rattle.law.specs.Packed.{end_in, reason_at, value_in, truth_in, evaluated_in, judged_in, placed};

use bmap::Reason;
use number::{Truth, Value};

pub(crate) const MALFORMED: u64 = 0;

// One more than the most of 32 bits; what makes a number of 32 bits at least 0.
const ROOM: u64 = 4_294_967_296;

const HALF: i64 = 2_147_483_648;

// The place just after the tree.
pub(crate) fn end_of(word: u64) -> usize
    ensures { result ≡ end_in word }
{
    (word / ROOM / 2) as usize
}

// Why there is no value, by the 32 bits, which are the reason's number: asked as a truth's bits are, so that both are one test.
fn reason_at(bits: u64) -> Reason
    ensures { result ≡ reason_at bits }
{
    if bits == 1 {
        return Reason::OutOfRange;
    }
    Reason::ZeroDivisor
}

pub(crate) fn value_of(word: u64) -> Value
    ensures { result ≡ value_in word }
{
    if word / ROOM % 2 == 0 {
        return Err(reason_at(word % ROOM));
    }
    Ok(((word % ROOM) as i64 - HALF) as i32)
}

pub(crate) fn truth_of(word: u64) -> Truth
    ensures { result ≡ truth_in word }
{
    if word / ROOM % 2 == 0 {
        return Err(reason_at(word % ROOM));
    }
    Ok(word % ROOM == 1)
}

// At place 0 the value is none that stands there.
pub(crate) fn with_value(v: Value, end: usize) -> u64
    requires { end < 2147483648 }
    ensures { evaluated_in result ≡ placed v end }
{
    let place = end as u64 * 2;
    match v {
        Ok(z) => (place + 1) * ROOM + (z as i64 + HALF) as u64,
        Err(why) => place * ROOM + why as u64,
    }
}

// In this order the arms are compiled to jumps; in the other one the next place waits for the truth, 8 % of a long law.
pub(crate) fn with_truth(t: Truth, end: usize) -> u64
    requires { end < 2147483648 }
    ensures { judged_in result ≡ placed t end }
{
    let place = end as u64 * 2;
    match t {
        Err(why) => place * ROOM + why as u64,
        Ok(b) => {
            if b {
                return (place + 1) * ROOM + 1;
            }
            (place + 1) * ROOM
        }
    }
}
