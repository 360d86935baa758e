// The limits of documents 01 and 02, each once, on the types that they bound; `every_limit` ties them to the definitions' own numbers.
ghost use Rattle.std.specs.Prelude.{◌≡◌};
ghost use Rattle.bmap.specs.Limits.{limits_of};

// How many of each a domain has.
#[derive(Clone, Copy, Debug, PartialEq, Eq)]
pub struct Counts {
    pub agents: usize,
    pub fluents: usize,
    pub knowledge: usize,
    pub entries: usize,
    pub laws: usize,
}

impl Counts {
    pub const AGENTS: usize = 16;

    pub const FLUENTS: usize = 32;

    pub const KNOWLEDGE: usize = 64;

    pub const ENTRIES: usize = 64;

    pub const LAWS: usize = 128;
}

// What a law may: name so many fluents and entries, ask for occurrences, look back.
#[derive(Clone, Copy, Debug, PartialEq, Eq)]
pub struct Context {
    pub fluents: usize,
    pub entries: usize,
    pub occurrences: bool,
    pub back: bool,
}

// A sheet: the names step after step, one for each agent, zeros after.
#[repr(C)]
#[derive(Clone, Copy, Debug, PartialEq, Eq)]
pub struct Sheet {
    pub steps: usize,
    pub names: [u8; Sheet::BYTES],
}

impl Sheet {
    pub const STEPS: usize = 64;

    pub const BYTES: usize = Sheet::STEPS * Counts::AGENTS;
}

// A frame's payload, the whole frame with its kind and its count, a law's nesting and its lag, the limit of a fluent's change in one step, at most.
pub const PAYLOAD: usize = 120;

pub const FRAME: usize = PAYLOAD + 2;

pub const DEPTH: usize = 16;

pub const LAG: usize = 63;

pub const CHANGE: u16 = 32_767;

// What is lent to be written, at least; what the program takes, at most.
pub const STORE: usize = 36_000;

pub const SUPPLEMENT: usize = 16_000;

pub const LEVELS: usize = (Sheet::STEPS + 1) * Counts::FLUENTS;

pub const INPUT: usize = 60_000;

// The sheets of a report, at most; the characters of the line that begins each; and the bytes that decide a report: whatever stands
// after them is behind a text that is too long, or one sheet too many.
pub const SHEETS: usize = 40;

pub const SHEET_BEGINS: usize = 5;

pub const REPORT_INPUT: usize = INPUT + SHEETS * (SHEET_BEGINS + INPUT) + SHEET_BEGINS;

// Every limit, for the promise below.
#[derive(Clone, Copy, Debug, PartialEq, Eq)]
pub struct Limits {
    pub agents: usize,
    pub fluents: usize,
    pub knowledge: usize,
    pub entries: usize,
    pub laws: usize,
    pub steps: usize,
    pub sheet: usize,
    pub edits: usize,
    pub payload: usize,
    pub depth: usize,
    pub lag: usize,
    pub change: u16,
    pub store: usize,
    pub levels: usize,
    pub input: usize,
    pub supplement: usize,
    pub sheets: usize,
    pub report: usize,
}

// The code's limits are the definitions'.
pub fn every_limit() -> Limits
    ensures { result ≡ limits_of }
{
    Limits {
        agents: Counts::AGENTS,
        fluents: Counts::FLUENTS,
        knowledge: Counts::KNOWLEDGE,
        entries: Counts::ENTRIES,
        laws: Counts::LAWS,
        steps: Sheet::STEPS,
        sheet: Sheet::BYTES,
        edits: crate::Session::EDITS,
        payload: PAYLOAD,
        depth: DEPTH,
        lag: LAG,
        change: CHANGE,
        store: STORE,
        levels: LEVELS,
        input: INPUT,
        supplement: SUPPLEMENT,
        sheets: SHEETS,
        report: REPORT_INPUT,
    }
}
