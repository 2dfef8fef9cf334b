// What a sheet is gathered from.
ghost use Rattle.rules.specs.Entries.{listing};
ghost use Rattle.cores.specs.Backing.{HeldIn};
ghost use Rattle.cores.specs.Settling.{listed_places};

use plan::Plan;
use rules::Conflicts;
use store::Source;

pub mod looking;

// A plan, the rows that it is asked of, and the conflicts that are listed of them.
#[derive(Drop)]
pub struct Gathering<'a, S: Source> {
    pub source: &'a S,
    pub conflicts: &'a Conflicts,
    pub plan: &'a Plan,
    ghost held: { HeldIn (S.model source.now).places (listed_places (listing conflicts.now)) },
}
