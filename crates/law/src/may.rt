// What a tree may, in one word, which a call takes in a register: how many fluents it may name, and of them those of a mask; how
// many entries; up to which lag; and whether it may look back.
ghost use Rattle.std.specs.Prelude.{◌≡◌, ◌≤◌, ◌<◌};
ghost use Rattle.law.specs.Check.{Test, allowed, in_mask, Asks, word_of, limit_of, fluents_in, entries_in, lag_in, back_in, mask_in, fluent_may, entry_may, back_may, inside_in, pair_passes};

use crate::mask::has_bit;
use crate::table::{CONSTRAINT, operator};
use bmap::{Context, Counts};

// A limit that lets every byte pass.
const ANY: u64 = 256;

const ANY_LAG: u64 = 255;

// Every bit of a mask.
const ALL: u32 = 4_294_967_295;

// Whether a tree may look back: it may, and what it looks back at may not again; or that may too. 0 where it may not.
const ONCE: u64 = 1;

const AGAIN: u64 = 2;

// The room of a limit, of a lag and of looking back, and where each part of the word begins, after the number of fluents.
const LIMITS: u64 = 512;

const LAGS: u64 = 256;

const BACKS: u64 = 4;

const ENTRIES_AT: u64 = LIMITS;

const LAG_AT: u64 = LIMITS * ENTRIES_AT;

const BACK_AT: u64 = LAGS * LAG_AT;

const MASK_AT: u64 = 4_294_967_296;

fn word(fluents: u64, entries: u64, lag: u64, back: u64, mask: u32) -> u64
    requires fluents { fluents ≤ 256 }
    requires entries { entries ≤ 256 }
    requires lag { lag < 256 }
    requires back { back < 4 }
    ensures { result ≡ word_of fluents entries lag back mask }
{
    fluents + ENTRIES_AT * entries + LAG_AT * lag + BACK_AT * back + MASK_AT * mask as u64
}

fn fluents_of(may: u64) -> u64
    ensures { result ≡ fluents_in may }
{
    may % LIMITS
}

fn entries_of(may: u64) -> u64
    ensures { result ≡ entries_in may }
{
    may / ENTRIES_AT % LIMITS
}

fn lag_of(may: u64) -> u64
    ensures { result ≡ lag_in may }
{
    may / LAG_AT % LAGS
}

fn back_of(may: u64) -> u64
    ensures { result ≡ back_in may }
{
    may / BACK_AT % BACKS
}

fn mask_of(may: u64) -> u64
    ensures { result ≡ mask_in may }
{
    may / MASK_AT
}

// No byte reaches 256.
fn limit(x: usize) -> u64
    ensures { result ≡ limit_of x }
{
    (x as u64).min(ANY)
}

// What a law may: "Code 29 is refused in A7 and A9", and of 2B and 2C "Neither may stand inside the other or itself".
pub(crate) fn allowed_in(x: Context) -> u64
    ensures { Asks result (allowed x) }
{
    let fluents = limit(x.fluents);
    let back = if x.back { ONCE } else { 0 };
    if x.occurrences {
        return word(fluents, limit(x.entries), bmap::LAG as u64, back, ALL);
    }
    word(fluents, 0, bmap::LAG as u64, back, ALL)
}

// Any entry, any lag and looking back anywhere, and the fluents of a mask.
pub(crate) fn only_of(mask: u32) -> u64
    ensures { Asks result (in_mask mask) }
{
    word(Counts::FLUENTS as u64, ANY, ANY_LAG, AGAIN, mask)
}

#[tactic(auto, unfolding(crate::specs::Check::fluent_may))]
fn fluent_may(may: u64, f: u8, lag: u8) -> bool
    ensures { result ≡ fluent_may may f lag }
{
    (f as u64) < fluents_of(may) && lag as u64 <= lag_of(may) && has_bit(mask_of(may), f % 32)
}

#[tactic(auto, unfolding(crate::specs::Check::entry_may))]
fn entry_may(may: u64, e: u8, lag: u8) -> bool
    ensures { result ≡ entry_may may e lag }
{
    (e as u64) < entries_of(may) && lag as u64 <= lag_of(may)
}

// The leaves of a sort, by the two bytes after the code. Of a constant any two pass.
pub(crate) fn leaf_passes(may: u64, wanted: u8, row: u8, a: u8, b: u8) -> bool
    ensures { (t : Test) → Asks may t → result ≡ pair_passes wanted t row a b }
{
    if wanted == CONSTRAINT {
        return entry_may(may, a, b);
    }
    if operator(row) == 0 {
        return true;
    }
    fluent_may(may, a, b)
}

pub(crate) fn back_passes(may: u64) -> bool
    ensures { result ≡ back_may may }
{
    back_of(may) != 0
}

// The word for what is looked back at: a law may not look back again there, the search for fluents may.
pub(crate) fn inside(may: u64) -> u64
    ensures { result ≡ inside_in may }
{
    let back = back_of(may);
    if back == AGAIN {
        return may;
    }
    may - BACK_AT * back
}
