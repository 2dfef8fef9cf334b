// The list of conflicts, in order of their places.
ghost use Rattle.std.specs.Prelude.{◌≡◌, true, map};
ghost use Rattle.ordered.specs.Lists.{items_in};
ghost use Rattle.ordered.specs.Order.{rises};
ghost use Rattle.rules.specs.Views.{listed_as, by_places};

use crate::conflict::Conflict;
use ordered::Few;

pub mod edits;
pub mod reading;

#[derive(Drop)]
pub struct Conflicts {
    items: Few<Conflict, 1024>,
    ghost rising: { rises by_places (map listed_as (items_in items)) ≡ true },
}
