// Keeping the list of conflicts exact as rows and rules come and go.
ghost use Rattle.std.specs.Prelude.{◌≡◌, ◌<◌, List, [], Option, None, length, slice_set};
ghost use Rattle.store.specs.declared.row.Row.{Row};
ghost use Rattle.rules.specs.Entries.{listing};
ghost use Rattle.rules.specs.Listing.{Lists, is_conflict};
ghost use Rattle.rules.specs.Rules.{Denial, denial};
ghost use Rattle.rules.specs.Upkeep.{AddSays};
ghost use Rattle.book.specs.Books.{rules_of, Exact, RuledSays};

use super::Log;
use ordered::{Few, Full};
use rules::{Conflicts, Rule, add_place, add_rule, remove_place};
use store::Source;

impl Log {
    // No rules, and so no conflicts.
    pub fn new() -> Log
        ensures rules { rules_of result ≡ [] }
        ensures conflicts { listing result.conflicts ≡ [] }
    {
        Log {
            rules: Few::new(Rule::blank()),
            conflicts: Conflicts::new(),
        }
    }

    // Adds the conflicts of the row at a place; where there are too many, the log stays as it was.
    pub fn add_place<S: Source>(&mut self, source: &S, place: usize) -> Result<(), Full>
        requires { Lists (is_conflict (slice_set (S.Source.model source.now).places place None) (rules_of self.old)) (listing self.old.conflicts) }
        ensures rules { rules_of self.new ≡ rules_of self.old }
        ensures says { AddSays (S.Source.model source.now).places (rules_of self.old) (listing self.old.conflicts) (listing self.new.conflicts) result }
    {
        add_place(source, self.rules.as_slice(), place, &mut self.conflicts)
    }

    // Adds a rule and its conflicts; where there are too many, the log stays as it was.
    pub fn add_rule<S: Source>(&mut self, source: &S, rule: Rule) -> Result<(), Full>
        requires room { length (rules_of self.old) < 16 }
        requires exact { Exact (S.Source.model source.now) self.old }
        ensures { RuledSays (S.Source.model source.now) self.old self.new (denial rule) result }
    {
        add_rule(source, self.rules.as_slice(), &rule, &mut self.conflicts)?;
        self.rules.push(rule);
        Ok(())
    }

    // Takes out the conflicts of a place; a list that was exact is exact again when that place is empty.
    pub fn remove_place(&mut self, place: usize)
        ensures rules { rules_of self.new ≡ rules_of self.old }
        ensures exact { (table : List (Option Row)) → Lists (is_conflict table (rules_of self.old)) (listing self.old.conflicts) → Lists (is_conflict (slice_set table place None) (rules_of self.new)) (listing self.new.conflicts) }
    {
        remove_place(place, &mut self.conflicts);
    }
}
