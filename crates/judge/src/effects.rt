// 4: what the effect laws set. "Effects are settled by values before the step": the laws read the history, which keeps its
// old levels until the new state is stored.
ghost use Rattle.std.specs.Prelude.{◌≡◌, true, [], ℕ, ◌≤◌, IfOk, length};
ghost use Rattle.bmap.specs.Limits.{most_fluents, most_laws};
ghost use Rattle.bmap.specs.Line.{effect_kind};
ghost use Rattle.bmap.specs.Domain.{Domain, Names, State};
ghost use Rattle.bmap.specs.Meaning.{History};
ghost use Rattle.bmap.specs.Judge.{settled};
ghost use Rattle.judge.specs.Told.{Lawful, Within, Occurring, Seen};
ghost use Rattle.judge.specs.Settings.{settled_of};
ghost use Rattle.judge.specs.Landing.{Laid, Lays};

use crate::landing::lay;
use crate::reading::{Run, Setting, valued, wanted};
use crate::verdict::{Breach, Fault};
use bmap::{Counts, FRAME};
use law::{HELD, HISTORY};

// How many settings, which go to the front of an array, the oldest first. "a value differing from an earlier one for the same fluent:
// kind 4, the later law": the exit with a label carries that law.
fn settle(
    held: &[u8; HELD],
    run: Run,
    entries: u64,
    history: &[i16; HISTORY],
    j: usize,
    settings: &mut [Setting; Counts::LAWS],
) -> Result<usize, Breach>
    requires { run.to ≤ most_laws }
    ensures count { IfOk result (λ m. m ≤ most_laws) }
    ensures settled { (d : Domain) (h : History) (n : ℕ) (names : Names) → Lawful d held.now n → Within held.now n effect_kind run
        → Occurring d names entries → Seen true d h history.now j → settled_of result settings.new ≡ settled d h j names 0 [] d.laws }
{
    let mut bad = run.to;
    let mut m = 0;
    'laws: for l in run.from..run.to {
        let wants = valued(wanted(held, FRAME * l, entries, history, j), l)?;
        if let Some(new) = wants {
            for i in (0..m).rev() {
                if settings[i].fluent == new.fluent && settings[i].level != new.level {
                    bad = l;
                    break 'laws;
                }
            }
            settings[m] = new;
            m += 1;
        }
    }
    if bad < run.to {
        return Err(Breach {
            fault: Fault::Conflict,
            number: bad,
        });
    }
    Ok(m)
}

// Check 4, with what was set laid over the old levels. Where no entry occurs no law sets anything.
pub(crate) fn lay_effects(
    held: &[u8; HELD],
    effect: Run,
    entries: u64,
    history: &[i16; HISTORY],
    j: usize,
    new: &mut [i32; Counts::FLUENTS],
) -> Result<(), Breach>
    requires { effect.to ≤ most_laws }
    ensures { (d : Domain) (h : History) (n : ℕ) (names : Names) (w : ℕ) (old : State) → Lawful d held.now n → Within held.now n effect_kind effect
        → Occurring d names entries → Seen true d h history.now j → w ≤ most_fluents → Laid w new.old [] old → Lays result w new.new (settled d h j names 0 [] d.laws) old }
{
    if entries == 0 {
        return Ok(());
    }
    let none = Setting {
        fluent: 0,
        level: 0,
    };
    let mut settings = [none; Counts::LAWS];
    let m = settle(held, effect, entries, history, j, &mut settings)?;
    lay(&settings[..m], new);
    Ok(())
}
