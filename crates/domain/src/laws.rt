// Whether a law's payload is as its kind describes it.
ghost use Rattle.std.specs.Prelude.{true, ◌≡◌};
ghost use Rattle.bmap.specs.Payload.{context, executable_in, effect_in, law_in};
ghost use Rattle.domain.specs.Check.{is_some, ends_at};

use bmap::{Context, Counts, Kind};
use index::byte_at;
use law::{check_constraint, check_expression};

// "Code 29 is refused in A7 and A9": occurrences says whether it may stand here. Every law may look back.
fn context_of(n: Counts, occurrences: bool) -> Context
    ensures { result ≡ context n occurrences }
{
    Context {
        fluents: n.fluents,
        entries: n.entries,
        occurrences,
        back: true,
    }
}

// Whether a payload ends where its tree does.
fn is_last(p: &[u8], end: Option<usize>) -> bool
    ensures { result ≡ ends_at p.now end }
{
    end.is_some_and(|end| p.len() <= end)
}

// "executability law: entry, constraint"
fn executable_fits(n: Counts, p: &[u8]) -> bool
    ensures { result ≡ is_some (executable_in n p.now) }
{
    let entry = byte_at(p, 0) as usize;
    if p.len() == 0 || entry >= n.entries {
        return false;
    }
    is_last(p, check_constraint(p, 1, context_of(n, true)))
}

// "effect law: entry, constraint, fluent, expression"
fn effect_fits(n: Counts, p: &[u8]) -> bool
    ensures { result ≡ is_some (effect_in n p.now) }
{
    let entry = byte_at(p, 0) as usize;
    if p.len() == 0 || entry >= n.entries {
        return false;
    }
    let x = context_of(n, true);
    let Some(next) = check_constraint(p, 1, x) else {
        return false;
    };
    let fluent = byte_at(p, next) as usize;
    if next >= p.len() || fluent >= n.fluents {
        return false;
    }
    is_last(p, check_expression(p, next + 1, x))
}

// Whether a payload is a law of a kind, in a domain with so many fluents and entries.
#[tactic(auto, unfolding(bmap::specs::Payload::law_in))]
pub fn law_fits(n: Counts, kind: u8, p: &[u8]) -> bool
    ensures { result ≡ is_some (law_in n kind p.now) }
{
    match kind {
        Kind::EXECUTABLE => executable_fits(n, p),
        Kind::EFFECT => effect_fits(n, p),
        Kind::STATIC | Kind::GOAL => is_last(p, check_constraint(p, 0, context_of(n, false))),
        Kind::CONCURRENCY => is_last(p, check_constraint(p, 0, context_of(n, true))),
        _ => false,
    }
}
