// Refusal 17: whether a session is one that an accepted opening and calls after it could leave.
ghost use Rattle.std.specs.Prelude.{◌≡◌, ◌≤◌, leb};
ghost use Rattle.bmap.specs.Plain.{both};
ghost use Rattle.bmap.specs.Limits.{most_agents, most_edits};
ghost use Rattle.bmap.specs.Session.{is_open, replays, model_of, same_session, layout};
ghost use Rattle.session.specs.Log.{Reached};
ghost use Rattle.session.specs.Calls.{OpenAt};

use crate::log::replay;
use bmap::{Counts, Session, Sheet};
use line::is_zero_from;

// Whether the numbers of a session are within the limits.
fn in_limits(agents: usize, standing: usize, total: usize) -> bool
    ensures { result ≡ both (both (leb 1 agents) (leb agents most_agents)) (both (leb standing total) (leb total most_edits)) }
{
    agents >= 1 && agents <= Counts::AGENTS && standing <= total && total <= Session::EDITS
}

// Whether the sheet that the standing edits leave is the session's, every undone one can be done in its turn, and zeros follow.
fn is_kept(s: &Session, sheet: Sheet) -> bool
    requires few { s.now.agents ≤ most_agents }
    requires below { s.now.standing ≤ s.now.total }
    requires short { s.now.total ≤ most_edits }
    requires reached { Reached s.now.agents s.now.standing s.now.log sheet }
    ensures { result ≡ both (replays (model_of s.now)) (same_session s.now (layout (model_of s.now))) }
{
    if sheet != s.sheet {
        return false;
    }
    match replay(s, s.standing, s.total, sheet) {
        None => false,
        Some(_) => is_zero_from(&s.log, s.total * Session::EDIT),
    }
}

// One walk over the log of a session: none where it is not open, or is none that calls could leave; else the sheet of its first k
// edits.
#[tactic(auto, using(crate::proofs::OpenLaws::open_as))]
pub(crate) fn open_at(s: &Session, k: usize) -> Option<Sheet>
    requires { k ≤ s.now.standing }
    ensures { OpenAt s.now k result }
{
    if !in_limits(s.agents, s.standing, s.total) {
        return None;
    }
    let empty = Sheet {
        steps: 0,
        names: [0; Sheet::BYTES],
    };
    let first = replay(s, 0, k, empty)?;
    let standing = replay(s, k, s.standing, first)?;
    if !is_kept(s, standing) {
        return None;
    }
    Some(first)
}

// Whether the session is open, and one that calls could leave.
pub fn is_open(s: Session) -> bool
    ensures { result ≡ is_open s }
{
    open_at(&s, s.standing).is_some()
}
