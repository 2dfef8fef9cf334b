// What comes of each command: what the book is asked, and what is replied.
ghost use Rattle.std.specs.Prelude.{◌≡◌};
ghost use Rattle.plan.specs.declared.node.Node.{Node};
ghost use Rattle.commands.specs.Rules.{written};
ghost use Rattle.commands.specs.Tasks.{enter, strike, rule, verdict, sheet};
ghost use Rattle.script.specs.Counters.{Follows};

use super::Counter;
use crate::faults::Fault;
use crate::reply::Reply;
use commands::RuleText;
use plan::{Line, Node, Plan};
use store::Row;
use verdict::Verdict;

impl Counter {
    // Enters a row.
    pub(super) fn enter(&mut self, row: &Row) -> Result<Reply, Fault>
        ensures same { self.new.lines ≡ self.old.lines }
        ensures says { Follows self.old self.new (enter row.now) result }
    {
        self.book.entry(row)?;
        Ok(Reply::Taken)
    }

    // Strikes a row.
    pub(super) fn strike(&mut self, row: &Row) -> Result<Reply, Fault>
        ensures same { self.new.lines ≡ self.old.lines }
        ensures says { Follows self.old self.new (strike row.now) result }
    {
        self.book.strike(row)?;
        Ok(Reply::Taken)
    }

    // Takes a rule.
    pub(super) fn rule(&mut self, text: &RuleText) -> Result<Reply, Fault>
        ensures same { self.new.lines ≡ self.old.lines }
        ensures says { Follows self.old self.new (rule (written text.now)) result }
    {
        self.book.rule(text.atoms(), text.comparisons())?;
        Ok(Reply::Taken)
    }

    // Asks whether every reading has a line as an answer of a plan.
    pub(super) fn judge(&mut self, nodes: &[Node], columns: [u32; 8]) -> Result<Reply, Fault>
        ensures same { self.new.lines ≡ self.old.lines }
        ensures says { Follows self.old self.new (verdict (nodes.now, columns)) result }
    {
        let plan = Plan::of(nodes)?;
        let line = Line { columns };
        match self
            .book
            .verdict(&plan, &line, &mut self.marks, &mut self.core)?
        {
            Verdict::Sure => Ok(Reply::Sure),
            Verdict::Unsure(_) => Ok(Reply::Unsure),
        }
    }

    // Asks for all lines of a plan that every reading has.
    pub(super) fn list(&mut self, nodes: &[Node]) -> Result<Reply, Fault>
        ensures same { self.new.lines ≡ self.old.lines }
        ensures says { Follows self.old self.new (sheet nodes.now) result }
    {
        let plan = Plan::of(nodes)?;
        let count = self.book.sheet(&plan, &mut self.marks, &mut self.sheet)?;
        Ok(Reply::Listed {
            width: plan.width(),
            count,
        })
    }
}
