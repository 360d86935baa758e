// The log's bytes: an entry's place in the sheet, the entries done in turn on a sheet's bytes, a new entry.
ghost use Rattle.std.specs.Prelude.{◌≡◌, ◌∷◌, ◌++◌, ◌+◌, ◌≤◌, ◌*◌, length, take};
ghost use Rattle.bmap.specs.Limits.{most_agents, most_edits};
ghost use Rattle.bmap.specs.Buffer.{padded};
ghost use Rattle.bmap.specs.Session.{edit_size};
ghost use Rattle.session.specs.Log.{laid, place_of, names_end, target_of, Reached, RunTo};

use bmap::{Session, Sheet};
use line::{is_zero_from, zero_from};

// An entry's first byte, compared where it stands in the log; and where its names begin, after its step's number.
pub(crate) const ENTER: u8 = 1;

pub(crate) const STRIKE: u8 = 2;

pub(crate) const AMEND: u8 = 3;

const NAMES: usize = 2;

// The step at which an edit's names are laid in a sheet, and the number of steps after it.
#[derive(Clone, Copy)]
pub(crate) struct Place {
    pub(crate) step: usize,
    pub(crate) steps: usize,
}

// Lays src over dst from a place on.
pub(crate) fn lay(dst: &mut [u8], at: usize, src: &[u8])
    requires { at + length src.now ≤ length dst.old }
    ensures { dst.new ≡ laid dst.old at src.now }
{
    dst[at..at + src.len()].copy_from_slice(src);
}

// The first bytes of a log, a new entry after them, and zeros after it.
pub(crate) fn write_entry(log: &mut [u8], at: usize, kind: u8, number: u8, names: &[u8])
    requires { at + 2 + length names.now ≤ length log.old }
    ensures { log.new ≡ padded (length log.old) (take at log.old ++ (kind ∷ number ∷ names.now)) }
{
    log[at] = kind;
    log[at + 1] = number;
    lay(log, at + NAMES, names);
    zero_from(log, at + NAMES + names.len());
}

// The place of an edit in a sheet of so many steps, where it can be done.
#[tactic(auto, unfolding(crate::specs::Log::place_of))]
pub(crate) fn edit_place(kind: u8, number: usize, steps: usize) -> Option<Place>
    ensures { result ≡ place_of kind number steps }
{
    match kind {
        ENTER if number == 0 && steps < Sheet::STEPS => Some(Place {
            step: steps,
            steps: steps + 1,
        }),
        STRIKE if number == 0 && steps > 0 => Some(Place {
            step: steps - 1,
            steps: steps - 1,
        }),
        AMEND if number > 0 && number <= steps => Some(Place {
            step: number - 1,
            steps,
        }),
        _ => None,
    }
}

// Where an entry's names end: a strike has none.
fn names_end(agents: usize, kind: u8) -> usize
    requires { agents ≤ most_agents }
    ensures { result ≡ names_end agents kind }
{
    if kind == STRIKE {
        NAMES
    } else {
        NAMES + agents
    }
}

// The place of an entry's edit, where zeros follow what the entry has.
#[tactic(auto, unfolding(crate::specs::Log::target_of))]
fn target(agents: usize, entry: &[u8], steps: usize) -> Option<Place>
    requires few { agents ≤ most_agents }
    requires whole { length entry.now ≡ edit_size }
    ensures { result ≡ target_of agents entry.now steps }
{
    let kind = entry[0];
    if !is_zero_from(entry, names_end(agents, kind)) {
        return None;
    }
    edit_place(kind, entry[1] as usize, steps)
}

// The sheet that the entries from one to another leave, done in turn on the one that those before them left; none where one of
// them is no edit that could be done.
pub(crate) fn replay(s: &Session, from: usize, to: usize, mut sheet: Sheet) -> Option<Sheet>
    requires few { s.now.agents ≤ most_agents }
    requires forward { from ≤ to }
    requires short { to ≤ most_edits }
    requires reached { Reached s.now.agents from s.now.log sheet }
    ensures { RunTo s.now.agents to s.now.log result }
{
    for k in from..to {
        let at = k * Session::EDIT;
        let entry = &s.log[at..at + Session::EDIT];
        let place = target(s.agents, entry, sheet.steps)?;
        lay(
            &mut sheet.names,
            place.step * s.agents,
            &entry[NAMES..NAMES + s.agents],
        );
        sheet.steps = place.steps;
    }
    Some(sheet)
}
