// Making a list of conflicts, and reading it.
ghost use Rattle.std.specs.Prelude.{◌≡◌, ◌≤◌, [], map, length};
ghost use Rattle.std.specs.Option.{option_map};
ghost use Rattle.std.specs.List.{slice_get};
ghost use Rattle.rules.specs.Entries.{listing};
ghost use Rattle.rules.specs.Views.{listed_as};

use super::Conflicts;
use crate::conflict::Conflict;
use ordered::Few;

impl Conflicts {
    // A list of none.
    pub fn new() -> Conflicts
        ensures { listing result ≡ [] }
    {
        Conflicts {
            items: Few::new(Conflict::NONE),
        }
    }

    // How many conflicts are listed.
    pub fn len(&self) -> usize
        ensures { result ≡ length (listing self.now) }
    {
        self.items.len()
    }

    // The conflicts, in the order of the list.
    pub fn as_slice(&self) -> &[Conflict]
        ensures items { map listed_as result.now ≡ listing self.now }
        ensures within { length result.now ≤ 1024 }
    {
        self.items.as_slice()
    }

    // The conflict with this number in the list, which counts from 0.
    pub fn get(&self, i: usize) -> Option<Conflict>
        ensures { option_map listed_as result ≡ slice_get (listing self.now) i }
    {
        self.as_slice().get(i).copied()
    }
}
