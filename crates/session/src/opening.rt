// Opening a session over a store.
ghost use Rattle.std.specs.Prelude.{◌≡◌};
ghost use Rattle.bmap.specs.Session.{open_session};
ghost use Rattle.session.specs.Calls.{changed_of, emptied};

use bmap::{Refusal, Session, Sheet};

// What an opening leaves: a refused one leaves a session too, the closed one, so the two stand side by side.
#[derive(Clone, Copy, Debug, PartialEq, Eq)]
pub struct Change {
    pub outcome: Result<(), Refusal>,
    pub session: Session,
}

// "empties sheet and log".
fn empty(agents: usize) -> Session
    ensures { result ≡ emptied agents }
{
    let sheet = Sheet {
        steps: 0,
        names: [0; Sheet::BYTES],
    };
    Session {
        agents,
        sheet,
        standing: 0,
        total: 0,
        log: [0; Session::LOG],
    }
}

// "Opening takes the number from a domain"; a store that is none leaves a closed, all-zero session (15).
#[tactic(auto, using(crate::proofs::OpeningLaws::opened_as))]
pub fn open(store: &[u8]) -> Change
    ensures { changed_of result ≡ open_session store.now }
{
    match domain::index_of(store) {
        Some(index) => Change {
            outcome: Ok(()),
            session: empty(index.counts.agents),
        },
        None => Change {
            outcome: Err(Refusal::NotDomain),
            session: empty(0),
        },
    }
}
