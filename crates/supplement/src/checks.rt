// The check of one frame of a supplement, after those before it: refusals 3, 4, 20, 4, in this order.
ghost use Rattle.std.specs.Prelude.{◌≡◌, List, ◌<◌, ◌≤◌, IfOk};
ghost use Rattle.bmap.specs.Limits.{most_laws};
ghost use Rattle.bmap.specs.Domain.{Domain};
ghost use Rattle.bmap.specs.Supplement.{Replacement, replacement_in};
ghost use Rattle.line.specs.Write.{answer_of};
ghost use Rattle.supplement.specs.Check.{LawsStand, stands_in, over_of, number_taken};

use bmap::{Counts, Kind, Refusal};
use domain::law_fits;
use index::{Index, byte_at, law_at};

// "The new law has the same kind and, for A5 and A6, the same entry": of a domain's law the frame, of what replaces it the payload.
fn stands_for(frame: &[u8], p: &[u8]) -> bool
    ensures { result ≡ stands_in frame.now p.now }
{
    let kind = byte_at(frame, 0);
    let has_entry = matches!(kind, Kind::EXECUTABLE | Kind::EFFECT);
    byte_at(p, 1) == kind && (!has_entry || byte_at(p, 2) == byte_at(frame, 2))
}

// A frame after some replacements of a domain's laws, by where the replacements stand: the number of the law that it replaces.
pub(crate) fn check_replacement(
    store: &[u8],
    index: &Index,
    over: &[u16; Counts::LAWS],
    kind: u8,
    p: &[u8],
) -> Result<usize, Refusal>
    requires { index.now.counts.laws ≤ most_laws }
    ensures number { (d : Domain) (earlier : List Replacement) → LawsStand d store.now index.now.counts index.now.laws → over.now ≡ over_of earlier
        → answer_of result ≡ number_taken (replacement_in d earlier (record { kind = kind; payload = p.now })) }
    ensures low { IfOk result (λ n. n < most_laws) }
{
    if kind != Kind::SUPPLEMENT {
        return Err(Refusal::BadKind);
    }
    if p.len() < 3 {
        return Err(Refusal::BadPayload);
    }
    let n = byte_at(p, 0) as usize;
    if n >= index.counts.laws || !stands_for(law_at(store, &index.laws, n), p) || over[n] != 0 {
        return Err(Refusal::OtherLaw);
    }
    if !law_fits(index.counts, byte_at(p, 1), &p[2..]) {
        return Err(Refusal::BadPayload);
    }
    Ok(n)
}
