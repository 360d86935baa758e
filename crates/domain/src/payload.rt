// What a payload says, and whether it is as its kind describes it: what refusal 4 asks.
ghost use Rattle.std.specs.Prelude.{◌≡◌, ◌<◌};
ghost use Rattle.bmap.specs.Limits.{most_payload};
ghost use Rattle.bmap.specs.Payload.{word_at, value_at, fluent_in, knowledge_in, entry_in, mask_fits, agents_fit, limit_fits, fluent_fits, knowledge_fits, entry_fits, item_in};
ghost use Rattle.domain.specs.Check.{is_some};
ghost use Rattle.domain.specs.Found.{fluent_row, knowledge_row, entry_row};

use crate::laws::law_fits;
use bmap::{CHANGE, Counts, Kind};
use index::{Entry, Fluent, Knowledge, byte_at};

pub(crate) fn fluent_in(p: &[u8]) -> Fluent
    ensures { result ≡ fluent_row (fluent_in p.now) }
{
    Fluent {
        lowest: value_at(p, 0),
        highest: value_at(p, 2),
        start: value_at(p, 4),
        limit: word_at(p, 6),
    }
}

pub(crate) fn knowledge_in(p: &[u8]) -> Knowledge
    ensures { result ≡ knowledge_row (knowledge_in p.now) }
{
    Knowledge {
        fluent: byte_at(p, 0),
        knowers: word_at(p, 1),
    }
}

pub(crate) fn entry_in(p: &[u8]) -> Entry
    ensures { result ≡ entry_row (entry_in p.now) }
{
    Entry {
        name: byte_at(p, 0),
        crew: word_at(p, 1),
    }
}

// Two bytes, high byte first.
fn word_at(p: &[u8], i: usize) -> u16
    requires { i < most_payload }
    ensures { result ≡ word_at p.now i }
{
    u16::from_be_bytes([byte_at(p, i), byte_at(p, i + 1)])
}

fn value_at(p: &[u8], i: usize) -> i16
    requires { i < most_payload }
    ensures { result ≡ value_at p.now i }
{
    number::signed_word(byte_at(p, i), byte_at(p, i + 1))
}

// Some agent, and no unknown one.
#[tactic(auto, unfolding(bmap::specs::Payload::mask_fits))]
fn mask_fits(n: Counts, mask: u16) -> bool
    ensures { result ≡ mask_fits n mask }
{
    mask != 0 && (n.agents >= Counts::AGENTS || mask >> n.agents == 0)
}

#[tactic(auto, unfolding(bmap::specs::Payload::agents_fit))]
fn agents_fit(p: &[u8]) -> bool
    ensures { result ≡ agents_fit p.now }
{
    p.len() == 1 && p[0] >= 1 && p[0] as usize <= Counts::AGENTS
}

// K6: 6 bytes have no limit, 8 one of "1 to 32,767".
#[tactic(auto, unfolding(bmap::specs::Payload::limit_fits))]
fn limit_fits(p: &[u8]) -> bool
    ensures { result ≡ limit_fits p.now }
{
    p.len() == 6 || p.len() == 8 && (1..=CHANGE).contains(&word_at(p, 6))
}

// "lowest ≤ start ≤ highest"
#[tactic(auto, unfolding(bmap::specs::Payload::fluent_fits))]
fn fluent_fits(p: &[u8]) -> bool
    ensures { result ≡ fluent_fits p.now }
{
    let fluent = fluent_in(p);
    limit_fits(p) && fluent.lowest <= fluent.start && fluent.start <= fluent.highest
}

#[tactic(auto, unfolding(bmap::specs::Payload::knowledge_fits))]
fn knowledge_fits(n: Counts, p: &[u8]) -> bool
    ensures { result ≡ knowledge_fits n p.now }
{
    let known = knowledge_in(p);
    p.len() == 3 && (known.fluent as usize) < n.fluents && mask_fits(n, known.knowers)
}

#[tactic(auto, unfolding(bmap::specs::Payload::entry_fits))]
fn entry_fits(n: Counts, p: &[u8]) -> bool
    ensures { result ≡ entry_fits n p.now }
{
    let entry = entry_in(p);
    p.len() == 3 && entry.name != 0 && mask_fits(n, entry.crew)
}

#[tactic(auto, unfolding(bmap::specs::Payload::item_in))]
pub(crate) fn payload_fits(n: Counts, kind: u8, p: &[u8]) -> bool
    ensures { result ≡ is_some (item_in n kind p.now) }
{
    match kind {
        Kind::AGENTS => agents_fit(p),
        Kind::FLUENT => fluent_fits(p),
        Kind::KNOWLEDGE => knowledge_fits(n, p),
        Kind::ENTRY => entry_fits(n, p),
        _ => law_fits(n, kind, p),
    }
}
