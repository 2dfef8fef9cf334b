// The calls that change a book: entry, strike and rule.
ghost use Rattle.std.specs.Prelude.{◌≡◌, []};
ghost use Rattle.book.specs.Books.{rules_of};
ghost use Rattle.book.specs.Calls.{EntrySays, StrikingSays, RuleSays, taken_by, ruled_by};
ghost use Rattle.book.specs.Plain.{entering, striking, ruling};
ghost use Rattle.book.specs.Runs.{opened, opening, Life, LivesOn};

use crate::book::Book;
use crate::log::Log;
use crate::refusal::Refusal;
use ordered::Full;
use rules::{Comparison, check_rule};
use store::{Row, Source};

const MOST_RULES: usize = 16;

impl<S: Source> Book<S> {
    // Opens a book over a source, with no rules; it holds the source's rows.
    pub fn open(source: S) -> Book<S>
        ensures source { result.source ≡ source }
        ensures rules { rules_of result.log ≡ [] }
        ensures law { Life (opening (opened (S.Source.model source))) (S.Source.model result.source) (rules_of result.log) }
    {
        Book {
            source,
            log: Log::new(),
        }
    }

    // Enters a row and tells its place.
    pub fn entry(&mut self, row: &Row) -> Result<usize, Refusal>
        ensures anchor { S.Source.anchor self.new.source ≡ S.Source.anchor self.old.source }
        ensures arity { (S.Source.model self.new.source).arity ≡ (S.Source.model self.old.source).arity }
        ensures rules { rules_of self.new.log ≡ rules_of self.old.log }
        ensures says { EntrySays (S.Source.model self.old.source) (S.Source.model self.new.source) (rules_of self.old.log) row.now result }
        ensures law { LivesOn (S.Source.model self.old.source) (rules_of self.old.log) (S.Source.model self.new.source) (rules_of self.new.log) (entering row.now) (taken_by result) }
    {
        let place = self.source.put(row)?;
        match self.log.add_place(&self.source, place) {
            Ok(()) => Ok(place),
            Err(Full) => {
                // The row was put a moment ago, so this takes it out again.
                let _ = self.source.strike(row);
                Err(Refusal::EntryConflicts)
            }
        }
    }

    // Strikes a row and tells the place that is empty now; the conflicts with the row go.
    pub fn strike(&mut self, row: &Row) -> Result<usize, Refusal>
        ensures anchor { S.Source.anchor self.new.source ≡ S.Source.anchor self.old.source }
        ensures arity { (S.Source.model self.new.source).arity ≡ (S.Source.model self.old.source).arity }
        ensures rules { rules_of self.new.log ≡ rules_of self.old.log }
        ensures says { StrikingSays (S.Source.model self.old.source) (S.Source.model self.new.source) row.now result }
        ensures law { LivesOn (S.Source.model self.old.source) (rules_of self.old.log) (S.Source.model self.new.source) (rules_of self.new.log) (striking row.now) (taken_by result) }
    {
        let place = self.source.strike(row)?;
        self.log.remove_place(place);
        Ok(place)
    }

    // Takes a rule and tells its number.
    pub fn rule(&mut self, atoms: &[u16], comparisons: &[Comparison]) -> Result<usize, Refusal>
        ensures source { self.new.source ≡ self.old.source }
        ensures says { RuleSays (S.Source.model self.old.source) (rules_of self.old.log) (rules_of self.new.log) (record { atoms = atoms.now; comparisons = comparisons.now }) result }
        ensures law { LivesOn (S.Source.model self.old.source) (rules_of self.old.log) (S.Source.model self.new.source) (rules_of self.new.log) (ruling (record { atoms = atoms.now; comparisons = comparisons.now })) (ruled_by result) }
    {
        let number = self.log.rules.len();
        if number >= MOST_RULES {
            return Err(Refusal::TooManyRules);
        }
        let rule = check_rule(&self.source, atoms, comparisons)?;
        self.log
            .add_rule(&self.source, rule)
            .map_err(|_| Refusal::RuleConflicts)?;
        Ok(number)
    }
}
