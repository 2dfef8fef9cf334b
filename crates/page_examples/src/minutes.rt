// The minutes of a run: its first sixteen outcomes.
ghost use Rattle.std.specs.Prelude.{[]};
ghost use Rattle.page_examples.specs.Minutes.{Keeps};

use book::{Done, Outcome, Recorder};
use ordered::Few;
use plan::Line;
use store::Row;

const MOST_OUTCOMES: usize = 16;

#[derive(Clone, Copy)]
pub(crate) struct Minutes {
    pub(crate) outcomes: Few<Outcome, 16>,
}

impl Minutes {
    // Nothing was told yet.
    pub(crate) fn new() -> Minutes
        ensures { Keeps result [] }
    {
        Minutes {
            outcomes: Few::new(Ok(Done::Taken)),
        }
    }
}

impl Recorder for Minutes {
    ghost told = { Keeps };

    fn record(&mut self, outcome: &Outcome, core: &[Row], lines: &[Line]) {
        if self.outcomes.len() < MOST_OUTCOMES {
            self.outcomes.push(*outcome);
        }
    }
}
