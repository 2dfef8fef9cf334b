// The search for the conflicts of one rule.
//
// A choice is made atom by atom. A row that is not of its atom's relation, is chosen already, or fails a comparison that
// waited for it ends the choice there, before a row for the next atom is looked for.
use crate::chosen::{Chosen, Pick, has};
use crate::conflict::Conflict;
use crate::list::Conflicts;
use crate::rule::Rule;
use ordered::{Few, Full};
use std::ops::Range;
use store::Source;

// Which choices are looked for: all, or those that have the row at one place for one atom.
#[derive(Clone, Copy)]
pub enum Scope {
    All,
    At { atom: usize, place: u16 },
}

impl Scope {
    ghost use Rattle.std.specs.Prelude.{◌≡◌};
    ghost use Rattle.rules.specs.Searching.{span_of};

    // The places to try for an atom.
    fn span(self, atom: usize, places: usize) -> Range<usize>
        ensures { (result.start, result.end) ≡ span_of self atom places }
    {
        match self {
            Scope::At { atom: fixed, place } if fixed == atom => {
                place as usize..place as usize + 1
            }
            _ => 0..places,
        }
    }
}

// A search in a source, for the conflicts of the rule with this number.
#[derive(Drop)]
pub struct Search<'a, S> {
    pub source: &'a S,
    pub rule: &'a Rule,
    pub number: u8,
    pub scope: Scope,
}

impl<S: Source> Search<'_, S> {
    ghost use Rattle.std.specs.Prelude.{◌≡◌, ◌<◌, length};
    ghost use Rattle.rules.specs.Beginnings.{places_in, Begun, ChooseSays};
    ghost use Rattle.rules.specs.Entries.{listing};
    ghost use Rattle.rules.specs.Rules.{denial};
    ghost use Rattle.rules.specs.Searching.{in_scope, FindSays, SearchSays};

    // Enters the conflict of each choice in scope that breaks the rule.
    pub fn run(&self, list: &mut Conflicts) -> Result<(), Full>
        ensures { FindSays (S.Source.model self.now.source.now).places (denial self.now.rule.now) (in_scope self.now.scope) self.now.number (listing list.old) (listing list.new) result }
    {
        self.extend(Few::new(Pick::NONE), list)
    }

    // The same of those choices that begin so.
    fn extend(&self, chosen: Chosen, list: &mut Conflicts) -> Result<(), Full>
        requires begun { Begun (S.Source.model self.now.source.now).places (denial self.now.rule.now) chosen }
        ensures { SearchSays (S.Source.model self.now.source.now).places (denial self.now.rule.now) self.now.scope self.now.number (places_in chosen) (listing list.old) (listing list.new) result }
    {
        let atom = chosen.len();
        if atom == self.rule.atoms().len() {
            return list.enter(Conflict::of(&chosen, self.number));
        }
        for place in self.scope.span(atom, self.source.places()) {
            if let Some(next) = self.choose(&chosen, place) {
                self.extend(next, list)?;
            }
        }
        Ok(())
    }

    // These rows and the one at a place, if a choice that breaks the rule can begin so.
    fn choose(&self, chosen: &Chosen, place: usize) -> Option<Chosen>
        requires begun { Begun (S.Source.model self.now.source.now).places (denial self.now.rule.now) chosen.now }
        requires room { length (places_in chosen.now) < length (denial self.now.rule.now).atoms }
        ensures { ChooseSays (S.Source.model self.now.source.now).places (denial self.now.rule.now) chosen.now place result }
    {
        let row = self.source.read(place)?;
        if row.relation != self.rule.atoms()[chosen.len()] || has(chosen, place) {
            return None;
        }
        let mut next = *chosen;
        next.push(Pick {
            place: place as u16,
            row,
        });
        self.rule.holds_at_last(next.as_slice()).then_some(next)
    }
}
