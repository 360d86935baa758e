// What every crate names: the operators of the law language and why they give no value, the limits and the kinds of frames
// (each once), the refusals, a sheet and a session.
// The definitions themselves are in specs/; nothing stands below this crate, and every other stands on it.
#![tactic(auto)]

mod kind;
mod limits;
mod refusal;
mod session;

pub use kind::Kind;
pub use limits::{
    CHANGE, Context, Counts, DEPTH, FRAME, INPUT, LAG, LEVELS, Limits, PAYLOAD, REPORT_INPUT,
    SHEET_BEGINS, SHEETS, STORE, SUPPLEMENT, Sheet, every_limit,
};
pub use refusal::{ReadError, Refusal};
pub use session::Session;

// Why there is no value: "A zero divisor", or "a result beyond the number range".
#[derive(Clone, Copy, Debug, PartialEq, Eq, Hash)]
pub enum Reason {
    ZeroDivisor,
    OutOfRange,
}

// Codes 12 to 16: two expressions.
#[derive(Clone, Copy, Debug, PartialEq, Eq, Hash)]
pub enum Operation {
    Sum,
    Difference,
    Product,
    Quotient,
    Remainder,
}

// Codes 17 and 18: one expression.
#[derive(Clone, Copy, Debug, PartialEq, Eq, Hash)]
pub enum Single {
    Negation,
    Absolute,
}

// Codes 20 to 25: two expressions.
#[derive(Clone, Copy, Debug, PartialEq, Eq, Hash)]
pub enum Comparison {
    Equal,
    Unequal,
    Less,
    AtMost,
    Greater,
    AtLeast,
}

// Codes 26 and 27: two constraints.
#[derive(Clone, Copy, Debug, PartialEq, Eq, Hash)]
pub enum Junction {
    And,
    Or,
}
