// The new state: the old levels with the settings laid over them, and check 5 before each is stored.
ghost use Rattle.std.specs.Prelude.{◌≡◌, List, [], ℕ, ◌+◌, ◌≤◌, length};
ghost use Rattle.bmap.specs.Limits.{most_fluents};
ghost use Rattle.bmap.specs.Domain.{Domain, State};
ghost use Rattle.bmap.specs.Judge.{Setting as PaperSetting, slow};
ghost use Rattle.judge.specs.States.{state_at, leaving, Kept};
ghost use Rattle.judge.specs.Settings.{settings_of};
ghost use Rattle.judge.specs.Landing.{Readable, Storable, Ranged, Laid, ranged, fit_of};

use crate::reading::Setting;
use crate::verdict::{Breach, Fault};
use bmap::Counts;
use index::Fluent;
use law::{HISTORY, ROW};

// The levels of state j, wide enough for what an expression gives.
pub(crate) fn old_levels(
    history: &[i16; HISTORY],
    j: usize,
    w: usize,
    new: &mut [i32; Counts::FLUENTS],
)
    requires { Readable w j }
    ensures { Laid w new.new [] (state_at w history.now j) }
{
    for f in 0..w {
        new[f] = i32::from(history[ROW * j + f]);
    }
}

// "Fluents that no law set keep their value": the settings over the old levels, the oldest first.
pub(crate) fn lay(settings: &[Setting], new: &mut [i32; Counts::FLUENTS])
    ensures { (w : ℕ) (old : State) → w ≤ most_fluents → Laid w new.old [] old → Laid w new.new (settings_of (length settings.now) settings.now) old }
{
    for setting in settings {
        let f = setting.fluent as usize;
        if f < Counts::FLUENTS {
            new[f] = setting.level;
        }
    }
}

// A value within its bounds.
fn fitted(lowest: i16, v: i32, highest: i16) -> Option<i16>
    ensures { result ≡ fit_of lowest v highest }
{
    if i32::from(lowest) <= v && v <= i32::from(highest) {
        return Some(v as i16);
    }
    None
}

// K6: whether a change is not "larger than the limit in either direction"; 0 is no limit.
fn is_slow(limit: u16, old: i16, new: i16) -> bool
    ensures { result ≡ slow limit old new }
{
    limit == 0 || number::at_most_apart(old, new, limit)
}

// 5: "each fluent by number, new value outside its range"; K6: "After the range check of a fluent and before the next fluent, a
// change larger than the limit". What passes is stored as state j + 1.
pub(crate) fn put_state(
    fluents: &[Fluent],
    new: &[i32; Counts::FLUENTS],
    history: &mut [i16; HISTORY],
    j: usize,
) -> Result<(), Breach>
    requires { Storable (length fluents.now) j }
    ensures kept { Kept j history.old history.new }
    ensures ranged { (d : Domain) (settings : List PaperSetting)
        → Ranged d fluents.now (length fluents.now) → Laid (length fluents.now) new.now settings (state_at (length fluents.now) history.old j)
        → leaving result (state_at (length fluents.now) history.new (j + 1)) ≡ ranged d settings (state_at (length fluents.now) history.old j) }
{
    for f in 0..fluents.len() {
        let fluent = fluents[f];
        let Some(z) = fitted(fluent.lowest, new[f], fluent.highest) else {
            return Err(Breach {
                fault: Fault::Range,
                number: f,
            });
        };
        if !is_slow(fluent.limit, history[ROW * j + f], z) {
            return Err(Breach {
                fault: Fault::TooFast,
                number: f,
            });
        }
        history[ROW * (j + 1) + f] = z;
    }
    Ok(())
}
