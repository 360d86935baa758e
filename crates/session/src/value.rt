// The calls by value: the session is taken, and what it becomes is returned; where the call refuses, it stays as it was.
ghost use Rattle.std.specs.Prelude.{◌≡◌, ◌+◌, ◌≤◌, ◌<◌, ◌*◌, length};
ghost use Rattle.bmap.specs.Limits.{most_agents, most_edits, sheet_size};
ghost use Rattle.bmap.specs.Session.{enter, strike, amend, edit_session, undo_session, redo_session};
ghost use Rattle.session.specs.Calls.{answer_of, changed_on, may_edit, with_edit};

use crate::kept::{is_open, open_at};
use crate::log::{AMEND, ENTER, Place, STRIKE, edit_place, lay, replay, write_entry};
use bmap::{Counts, Refusal, Session, Sheet};

// What every edit asks first: 17, then 14, "200 edits stand". Undone edits take no room.
fn may_edit(s: Session) -> Result<(), Refusal>
    ensures { answer_of result ≡ may_edit s }
{
    if !is_open(s) {
        return Err(Refusal::NotSession);
    }
    if s.standing >= Session::EDITS {
        return Err(Refusal::LogFull);
    }
    Ok(())
}

// One more edit: its names are laid at a step, and its entry takes the place of those that are undone.
fn add(mut s: Session, kind: u8, number: u8, names: &[u8], place: Place) -> Session
    requires few { length names.now ≤ most_agents }
    requires room { s.standing < most_edits }
    requires within { place.step * s.agents + length names.now ≤ sheet_size }
    ensures { result ≡ with_edit s kind number names.now place.step place.steps }
{
    let (step_at, entry_at) = (place.step * s.agents, s.standing * Session::EDIT);
    lay(&mut s.sheet.names, step_at, names);
    s.sheet.steps = place.steps;
    write_entry(&mut s.log, entry_at, kind, number, names);
    s.standing += 1;
    s.total = s.standing;
    s
}

// "Enter: 17, 14, 8, 9".
#[tactic(auto, using(crate::proofs::CallLaws::edited_as))]
pub fn entered(s: Session, step: &[u8]) -> Result<Session, Refusal>
    ensures { changed_on s result ≡ edit_session (enter step.now) s }
{
    may_edit(s)?;
    if step.len() != s.agents {
        return Err(Refusal::NotWhole);
    }
    let place = edit_place(ENTER, 0, s.sheet.steps).ok_or(Refusal::TooLong)?;
    Ok(add(s, ENTER, 0, step, place))
}

// "Strike: 17, 14, 11".
#[tactic(auto, using(crate::proofs::CallLaws::edited_as))]
pub fn stricken(s: Session) -> Result<Session, Refusal>
    ensures { changed_on s result ≡ edit_session strike s }
{
    may_edit(s)?;
    let place = edit_place(STRIKE, 0, s.sheet.steps).ok_or(Refusal::NoStep)?;
    let idle = [0; Counts::AGENTS];
    Ok(add(s, STRIKE, 0, &idle[..s.agents], place))
}

// "Amend: 17, 14, 8, 11"; "Steps are numbered from 1".
#[tactic(auto, using(crate::proofs::CallLaws::edited_as))]
pub fn amended(s: Session, number: usize, step: &[u8]) -> Result<Session, Refusal>
    ensures { changed_on s result ≡ edit_session (amend number step.now) s }
{
    may_edit(s)?;
    if step.len() != s.agents {
        return Err(Refusal::NotWhole);
    }
    let place = edit_place(AMEND, number, s.sheet.steps).ok_or(Refusal::NoStep)?;
    Ok(add(s, AMEND, number as u8, step, place))
}

// "Undo: 17, 12": the sheet before the newest standing edit is met on the walk that asks for 17.
#[tactic(auto, using(crate::proofs::CallLaws::undone_as))]
pub fn undone(s: Session) -> Result<Session, Refusal>
    ensures { changed_on s result ≡ undo_session s }
{
    let standing = s.standing.saturating_sub(1);
    let sheet = open_at(&s, standing).ok_or(Refusal::NotSession)?;
    if s.standing == 0 {
        return Err(Refusal::NothingStands);
    }
    Ok(Session {
        sheet,
        standing,
        ..s
    })
}

// "redo: 17, 13".
#[tactic(auto, using(crate::proofs::CallLaws::redone_as))]
pub fn redone(s: Session) -> Result<Session, Refusal>
    ensures { changed_on s result ≡ redo_session s }
{
    if !is_open(s) {
        return Err(Refusal::NotSession);
    }
    if s.standing >= s.total {
        return Err(Refusal::NothingUndone);
    }
    let standing = s.standing + 1;
    let sheet = replay(&s, s.standing, standing, s.sheet).ok_or(Refusal::NotSession)?;
    Ok(Session {
        sheet,
        standing,
        ..s
    })
}
