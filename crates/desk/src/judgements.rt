// Verdicts.
ghost use Rattle.std.specs.Prelude.{◌≡◌, ◌<◌, ◌^◌, Ok, IfOk};
ghost use Rattle.bmap.specs.Session.{verdict_of};
ghost use Rattle.bmap.specs.Supplement.{judge_under};
ghost use Rattle.bmap.specs.Verdict.{judge_sheet};
ghost use Rattle.judge.specs.Answer as answer;
ghost use Rattle.judge.specs.declared.verdict.Verdict.TheVariants.{Accepted};
ghost use Rattle.session.specs.Verdict as session;
ghost use Rattle.desk.specs.Numbers.{verdict_number, judged_number, accepted_kind, lower_half, kind_in};

use crate::parts::{FOURTH, SECOND, THIRD, refused};
use bmap::{Refusal, Session};
use judge::{Judged, Verdict};

// What stands for a fault's kind where there is none, since C is answered by one number.
const ACCEPTED: u64 = 128;

const REFUSED: u64 = 255;

// Kind, step and number, a byte each.
fn verdict(found: Verdict) -> u64
    ensures { result ≡ verdict_number (answer.verdict_of found) }
{
    match found {
        Verdict::Accepted => ACCEPTED * THIRD,
        Verdict::Broken {
            fault,
            step,
            number,
        } => fault.number() as u64 * THIRD + (step as u64 % 256 * SECOND + number as u64 % 256),
    }
}

// The number of states written, 7 bits, above the verdict, which sets no bit of a refusal's. Only an accepted sheet has the kind
// of one, for who keeps the lower half too.
fn judged(given: Result<Judged, Refusal>) -> u64
    ensures value { result ≡ judged_number (answer.states_counted given) (answer.counted_of given) }
    ensures unmarked { IfOk given (λ _. result < 2 ^ 31) }
    ensures accepted_only { kind_in (lower_half result) ≡ accepted_kind → given ≡ Ok (record { verdict = Accepted; states = answer.states_counted given }) }
{
    match given {
        Ok(found) => found.states as u64 % 128 * FOURTH + verdict(found.verdict),
        Err(why) => refused(why, REFUSED * THIRD + why.number() as u64),
    }
}

#[unsafe(no_mangle)]
pub extern "C" fn waroth_judge(store: &[u8], sheet: &[u8], levels: &mut [i16]) -> u64
    ensures value { result ≡ judged_number (answer.states_written store.now sheet.now levels.old) (judge_sheet store.now sheet.now levels.old).answer }
    ensures levels_after { levels.new ≡ (judge_sheet store.now sheet.now levels.old).levels }
{
    judged(judge::judge_counted(store, sheet, levels))
}

#[unsafe(no_mangle)]
pub extern "C" fn waroth_judge_under<'a>(
    store: &'a [u8],
    supplement: &'a [u8],
    sheet: &[u8],
    levels: &mut [i16],
) -> u64
    ensures value { result ≡ judged_number (answer.states_written_under store.now supplement.now sheet.now levels.old) (judge_under store.now supplement.now sheet.now levels.old).answer }
    ensures levels_after { levels.new ≡ (judge_under store.now supplement.now sheet.now levels.old).levels }
{
    judged(judge::judge_under_counted(store, supplement, sheet, levels))
}

// The session is passed itself, and stays as it is.
#[unsafe(no_mangle)]
pub extern "C" fn waroth_verdict(s: Session, store: &[u8], levels: &mut [i16]) -> u64
    ensures value { result ≡ judged_number (session.states_written s store.now levels.old) (verdict_of s store.now levels.old).answer }
    ensures levels_after { levels.new ≡ (verdict_of s store.now levels.old).levels }
{
    judged(session::verdict_counted(s, store, levels))
}
