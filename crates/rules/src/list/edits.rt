// Entering conflicts into the list, and taking them out.
ghost use Rattle.std.specs.Prelude.{◌≡◌, not, filter, ◌==◌};
ghost use Rattle.rules.specs.Entries.{listing, EnterSays};
ghost use Rattle.rules.specs.Listing.{touches};
ghost use Rattle.rules.specs.Views.{listed_as};

use super::Conflicts;
use crate::conflict::Conflict;
use ordered::Full;

impl Conflicts {
    // Enters a conflict, unless one with the same places is listed already.
    pub fn enter(&mut self, c: Conflict) -> Result<(), Full>
        ensures { EnterSays (listed_as c) (listing self.old) (listing self.new) result }
    {
        self.items.enter(c)
    }

    // Takes out the conflicts that have this place.
    pub fn drop_place(&mut self, place: usize)
        ensures { listing self.new ≡ filter (λ c. not (touches place c)) (listing self.old) }
    {
        self.items.retain(|c| !c.touches(place));
    }

    // Takes out the conflicts of this rule.
    pub fn drop_rule(&mut self, rule: u8)
        ensures { listing self.new ≡ filter (λ c. not (c.rule == rule)) (listing self.old) }
    {
        self.items.retain(|c| c.rule() != rule);
    }
}
