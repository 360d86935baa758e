// What the report says of each fluent, over all states of the accepted sheets.
ghost use Rattle.std.specs.Prelude.{◌+◌, ◌≤◌, ◌<◌, List, ℤ};
ghost use Rattle.bmap.specs.Report.{values_of, figures_line, figures_lines};
ghost use Rattle.answer.specs.Put.{Put, HasRoom};
ghost use Rattle.answer.specs.Room.{fluent_room, figures_room};
ghost use Rattle.answer.specs.States.{rows_of, Counted};
ghost use Rattle.answer.specs.Figures.{FiguresOf};

use crate::cut::LINE_FEED;
use crate::print::{States, Text};

// Of one fluent.
#[derive(Clone, Copy)]
struct Figures {
    lowest: isize,
    highest: isize,
    sum: isize,
    count: usize,
}

// Of a fluent's level in each state.
fn figures_of(states: &States, fluent: usize) -> Figures
    requires { Counted states.now × (0 < states.now.count) × (fluent < states.now.fluents) }
    ensures { FiguresOf result (values_of fluent (rows_of states.now)) }
{
    let first = isize::from(states.levels[fluent]);
    let mut lowest = first;
    let mut highest = first;
    let mut sum = first;
    for k in 1..states.count {
        let next = isize::from(states.levels[k * states.fluents + fluent]);
        lowest = lowest.min(next);
        highest = highest.max(next);
        sum += next;
    }
    Figures {
        lowest,
        highest,
        sum,
        count: states.count,
    }
}

impl Text<'_> {
    // "a line F with its number, lowest value, highest value, sum and count of values"
    fn fluent(&mut self, fluent: usize, figures: Figures)
        requires { HasRoom self.old fluent_room }
        ensures put { (values : List ℤ) → FiguresOf figures values → Put self.old (figures_line fluent values) self.new }
        ensures upper_bound { self.new.at ≤ self.old.at + fluent_room }
    {
        self.byte(b'F');
        self.number(fluent);
        self.signed(figures.lowest);
        self.signed(figures.highest);
        self.signed(figures.sum);
        self.number(figures.count);
        self.byte(LINE_FEED);
    }

    // One line for each fluent; none without a state.
    pub(crate) fn figures(&mut self, states: &States)
        requires { Counted states.now × HasRoom self.old figures_room }
        ensures { Put self.old (figures_lines states.now.fluents (rows_of states.now)) self.new }
    {
        if states.count == 0 {
            return;
        }
        for fluent in 0..states.fluents {
            self.fluent(fluent, figures_of(states, fluent));
        }
    }
}
