// The verdict of a session's sheet against a store.
ghost use Rattle.std.specs.Prelude.{◌≡◌};
ghost use Rattle.bmap.specs.Session.{verdict_of};
ghost use Rattle.judge.specs.Answer.{answer_of, counted_of, states_counted};
ghost use Rattle.session.specs.Verdict.{states_written};

use crate::kept::is_open;
use bmap::{Refusal, Session};
use judge::{Judged, Verdict};

// "Verdict of a session: 17, 10, 15, 16"; then the judge's of its sheet.
pub fn verdict(s: Session, store: &[u8], levels: &mut [i16]) -> Result<Verdict, Refusal>
    ensures { record { answer = answer_of result; levels = levels.new } ≡ verdict_of s store.now levels.old }
{
    let judged = verdict_counted(s, store, levels)?;
    Ok(judged.verdict)
}

// The same, with the number of states written.
#[tactic(auto, using(crate::proofs::VerdictLaws::verdict_as))]
pub fn verdict_counted(s: Session, store: &[u8], levels: &mut [i16]) -> Result<Judged, Refusal>
    ensures levels_after { record { answer = counted_of result; levels = levels.new } ≡ verdict_of s store.now levels.old }
    ensures states { states_counted result ≡ states_written s store.now levels.old }
{
    if !is_open(s) {
        return Err(Refusal::NotSession);
    }
    let end = s.sheet.steps * s.agents;
    judge::judge_for(s.agents, store, &s.sheet.names[..end], levels)
}
