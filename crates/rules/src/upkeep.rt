// Keeping the list of conflicts exact when a row or a rule comes or goes.
//
// A row that comes is tried for each atom of its relation, with one pass over the places for each further atom. Where the
// conflicts do not fit the list, those of the row or of the rule that comes are taken out again.
// A rule's number is a byte, so there may be 256 rules: who hands over a slice of them shows that it is not longer.
// No type holds such a slice (`few`): the rules are the caller's own slice, and a type for it would be made for one call.
ghost use Rattle.std.specs.Prelude.{◌≡◌, ◌<◌, ◌≤◌, not, List, [], ◌∷◌, ◌++◌, map, length, Some, None, filter, Option, slice_set};
ghost use Rattle.store.specs.Store.{at};
ghost use Rattle.rules.specs.Entries.{listing};
ghost use Rattle.rules.specs.Listing.{Lists, is_conflict, touches};
ghost use Rattle.rules.specs.Rules.{Denial, denial};
ghost use Rattle.rules.specs.Upkeep.{AddSays};

use crate::list::Conflicts;
use crate::rule::Rule;
use crate::search::{Scope, Search};
use ordered::Full;
use store::{Row, Source};

// Adds the conflicts of the row at a place to the list, which has all the others.
pub fn add_place<S: Source>(
    source: &S,
    rules: &[Rule],
    place: usize,
    list: &mut Conflicts,
) -> Result<(), Full>
    requires few { length rules.now ≤ 256 }
    requires exact { Lists (is_conflict (slice_set (S.Source.model source.now).places place None) (map denial rules.now)) (listing list.old) }
    ensures { AddSays (S.Source.model source.now).places (map denial rules.now) (listing list.old) (listing list.new) result }
{
    let Some(row) = source.read(place) else {
        return Ok(());
    };
    let arrival = Arrival {
        source,
        rules,
        place: place as u16,
        row,
    };
    let added = arrival.add_each(list);
    if added.is_err() {
        list.drop_place(place);
    }
    added
}

// A row that has come: where it stands, and the rules that it may break.
#[derive(Drop)]
struct Arrival<'a, S: Source> {
    source: &'a S,
    rules: &'a [Rule],
    place: u16,
    row: Row,
    ghost few: { length rules.now ≤ 256 },
    ghost stands: { at (S.Source.model source.now) place ≡ Some row },
}

impl<S: Source> Arrival<'_, S> {
    ghost use Rattle.std.specs.Prelude.{map, nat_eq};
    ghost use Rattle.store.specs.Lists.{any};
    ghost use Rattle.rules.specs.Choosing.{up_to};
    ghost use Rattle.rules.specs.Entries.{listing};
    ghost use Rattle.rules.specs.Listing.{Lists};
    ghost use Rattle.rules.specs.Rules.{denial};
    ghost use Rattle.rules.specs.Searching.{FindSays};
    ghost use Rattle.rules.specs.Upkeep.{RoundsSay, away_from};

    // Goes through the rules, the least first, so that a conflict is told with the least that it breaks.
    fn add_each(&self, list: &mut Conflicts) -> Result<(), Full>
        requires others { Lists (up_to (S.Source.model self.now.source.now).places (map denial self.now.rules.now) (away_from self.now.place) 0) (listing list.old) }
        ensures { RoundsSay (S.Source.model self.now.source.now).places (map denial self.now.rules.now) (away_from self.now.place) (listing list.new) result }
    {
        for (number, rule) in self.rules.iter().enumerate() {
            self.add_share(number as u8, rule, list)?;
        }
        Ok(())
    }

    // Enters the conflicts that one rule makes with the row, which can stand for each atom of its relation.
    fn add_share(&self, number: u8, rule: &Rule, list: &mut Conflicts) -> Result<(), Full>
        ensures { FindSays (S.Source.model self.now.source.now).places (denial rule.now) (any (nat_eq self.now.place)) number (listing list.old) (listing list.new) result }
    {
        for (atom, relation) in rule.atoms().iter().enumerate() {
            if *relation == self.row.relation {
                let scope = Scope::At {
                    atom,
                    place: self.place,
                };
                let search = Search {
                    source: self.source,
                    rule,
                    number,
                    scope,
                };
                search.run(list)?;
            }
        }
        Ok(())
    }
}

// Adds the conflicts that a further rule makes to the list, which has those of the rules before it.
pub fn add_rule<S: Source>(
    source: &S,
    rules: &[Rule],
    rule: &Rule,
    list: &mut Conflicts,
) -> Result<(), Full>
    requires few { length rules.now < 256 }
    requires exact { Lists (is_conflict (S.Source.model source.now).places (map denial rules.now)) (listing list.old) }
    ensures { AddSays (S.Source.model source.now).places (map denial rules.now ++ denial rule.now ∷ []) (listing list.old) (listing list.new) result }
{
    let search = Search {
        source,
        rule,
        number: rules.len() as u8,
        scope: Scope::All,
    };
    let added = search.run(list);
    if added.is_err() {
        list.drop_rule(search.number);
    }
    added
}

// Takes the conflicts of a place out of the list; one that was exact is exact again when that place is empty.
pub fn remove_place(emptied: usize, list: &mut Conflicts)
    ensures list { listing list.new ≡ filter (λ c. not (touches emptied c)) (listing list.old) }
    ensures exact { (table : List (Option Row)) (rules : List Denial) → Lists (is_conflict table rules) (listing list.old) → Lists (is_conflict (slice_set table emptied None) rules) (listing list.new) }
{
    list.drop_place(emptied);
}
