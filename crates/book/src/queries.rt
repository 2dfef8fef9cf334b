// The calls that tell of the conflicts and of plain answers, and change nothing.
ghost use Rattle.std.specs.Prelude.{◌≡◌, ◌≤◌, length};
ghost use Rattle.ordered.specs.Lists.{items_in};
ghost use Rattle.rules.specs.Entries.{listing};
ghost use Rattle.rules.specs.Listing.{rows_at};
ghost use Rattle.book.specs.Books.{rules_of};
ghost use Rattle.plan.specs.Plans.{nodes_of};
ghost use Rattle.book.specs.Queries.{Counts, ConflictSays, PlainTells};

use crate::book::Book;
use crate::forbidden::Forbidden;
use crate::refusal::Refusal;
use answers::plain;
use ordered::Few;
use plan::{Line, Plan};
use store::{Row, Source};

impl<S: Source> Book<S> {
    // How many conflicts there are.
    pub fn conflicts(&self) -> usize
        ensures listed { result ≡ length (listing self.now.log.conflicts) }
        ensures counts { Counts (S.Source.model self.now.source) (rules_of self.now.log) result }
    {
        self.log.conflicts.len()
    }

    // The conflict with this number: its rows in order of place, and its rule.
    pub fn conflict(&self, number: usize) -> Result<Forbidden, Refusal>
        ensures { ConflictSays (S.Source.model self.now.source).places (listing self.now.log.conflicts) number result }
    {
        let conflict = self
            .log
            .conflicts
            .get(number)
            .ok_or(Refusal::NoSuchConflict)?;
        Ok(Forbidden {
            rows: rows_at(&self.source, conflict.places()),
            rule: conflict.rule(),
        })
    }

    // Whether the line is an answer of the plan over all rows held, whether they contradict each other or not.
    pub fn plain(&self, plan: &Plan, line: &Line) -> Result<bool, Refusal>
        ensures { PlainTells (S.Source.model self.now.source) (nodes_of plan.now) line.now.columns result }
    {
        Ok(plain(&self.source, plan, line)?)
    }
}

// The rows at some places, at most three, in their order.
fn rows_at<S: Source>(source: &S, places: &[u16]) -> Few<Row, 3>
    requires { length places.now ≤ 3 }
    ensures { items_in result ≡ rows_at (S.Source.model source.now).places places.now }
{
    let mut rows = Few::new(Row::BLANK);
    for place in places {
        if let Some(row) = source.read(*place as usize) {
            rows.push(row);
        }
    }
    rows
}
