// The conflict that a choice of rows makes.
ghost use Rattle.rules.specs.Beginnings.{places_in};
ghost use Rattle.rules.specs.Searching.{MadeOf};
ghost use Rattle.rules.specs.Views.{listed_as};

use super::Conflict;
use crate::chosen::Chosen;
use ordered::Few;

impl Conflict {
    // The conflict of the chosen rows, under the rule with this number.
    pub(crate) fn of(chosen: &Chosen, rule: u8) -> Conflict
        ensures { MadeOf (places_in chosen.now) rule (listed_as result) }
    {
        let mut sorted: Few<u16, 3> = Few::new(0);
        for pick in chosen.as_slice() {
            // A place that is there already stays, and there is room for each: at most three are chosen.
            let _ = sorted.enter(pick.place);
        }
        let mut places = [0; 3];
        places[..sorted.len()].copy_from_slice(sorted.as_slice());
        Conflict {
            places,
            size: sorted.len() as u8,
            rule,
        }
    }
}
