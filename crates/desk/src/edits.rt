// The calls on a session that is lent: each alters it, and answers by the refusal's number.
ghost use Rattle.bmap.specs.Session.{enter, strike, amend, edit_session, undo_session, redo_session, open_session};
ghost use Rattle.desk.specs.Numbers.{answers};

use crate::parts::done;
use bmap::Session;

// Whatever the session was before.
#[unsafe(no_mangle)]
pub extern "C" fn waroth_open(s: &mut Session, store: &[u8]) -> u64
    ensures { answers result s.new (open_session store.now) }
{
    let opened = session::open(store);
    *s = opened.session;
    done(opened.outcome)
}

#[unsafe(no_mangle)]
pub extern "C" fn waroth_enter(s: &mut Session, names: &[u8]) -> u64
    ensures { answers result s.new (edit_session (enter names.now) s.old) }
{
    done(session::enter(s, names))
}

#[unsafe(no_mangle)]
pub extern "C" fn waroth_strike(s: &mut Session) -> u64
    ensures { answers result s.new (edit_session strike s.old) }
{
    done(session::strike(s))
}

#[unsafe(no_mangle)]
pub extern "C" fn waroth_amend(s: &mut Session, number: usize, names: &[u8]) -> u64
    ensures { answers result s.new (edit_session (amend number names.now) s.old) }
{
    done(session::amend(s, number, names))
}

#[unsafe(no_mangle)]
pub extern "C" fn waroth_undo(s: &mut Session) -> u64
    ensures { answers result s.new (undo_session s.old) }
{
    done(session::undo(s))
}

#[unsafe(no_mangle)]
pub extern "C" fn waroth_redo(s: &mut Session) -> u64
    ensures { answers result s.new (redo_session s.old) }
{
    done(session::redo(s))
}
