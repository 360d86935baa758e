// The calls that alter the session itself: each takes it out, calls the one by value, and puts back what that leaves; where that
// refuses, the session stays as it is.
ghost use Rattle.std.specs.Prelude.{◌≡◌};
ghost use Rattle.bmap.specs.Session.{enter, strike, amend, edit_session, undo_session, redo_session};
ghost use Rattle.session.specs.Calls.{leaves};

use crate::value::{amended, entered, redone, stricken, undone};
use bmap::{Refusal, Session};

// An edit of the lent session: a step after the last.
pub fn enter(s: &mut Session, step: &[u8]) -> Result<(), Refusal>
    ensures { leaves result s.new ≡ edit_session (enter step.now) s.old }
{
    *s = entered(*s, step)?;
    Ok(())
}

// The last step goes.
pub fn strike(s: &mut Session) -> Result<(), Refusal>
    ensures { leaves result s.new ≡ edit_session strike s.old }
{
    *s = stricken(*s)?;
    Ok(())
}

// Another step in the place of one; "Steps are numbered from 1".
pub fn amend(s: &mut Session, number: usize, step: &[u8]) -> Result<(), Refusal>
    ensures { leaves result s.new ≡ edit_session (amend number step.now) s.old }
{
    *s = amended(*s, number, step)?;
    Ok(())
}

// "Undo withdraws the newest standing edit".
pub fn undo(s: &mut Session) -> Result<(), Refusal>
    ensures { leaves result s.new ≡ undo_session s.old }
{
    *s = undone(*s)?;
    Ok(())
}

// "redo brings back the edit most recently undone".
pub fn redo(s: &mut Session) -> Result<(), Refusal>
    ensures { leaves result s.new ≡ redo_session s.old }
{
    *s = redone(*s)?;
    Ok(())
}
