// The words of a plan, whose nodes are read when they are wanted.
use crate::parsing::{further, plan_from, verdict_from};
use crate::verdicts::VerdictText;
use ordered::Few;
use plan::Node;

// The line that they stand on. Its nodes take 4 KiB, and a command that held them would be moved with them, whatever it commands: that
// would be most of what a line costs.
#[derive(Clone, Copy)]
pub struct PlanWords {
    line: Few<u8, 200>,
}

impl PlanWords {
    ghost use Rattle.std.specs.Prelude.{◌≡◌, ◌≤◌, length};
    ghost use Rattle.ordered.specs.Lists.{items_in};
    ghost use Rattle.commands.specs.Postfixes.{asked};
    ghost use Rattle.commands.specs.PlanWords.{nodes_in_words, verdict_in_words};

    // The words of this line behind its first.
    pub(crate) fn of(line: &[u8]) -> PlanWords
        requires { length line.now ≤ 200 }
        ensures { items_in result.line ≡ line.now }
    {
        PlanWords {
            line: Few::of(line, 0),
        }
    }

    // The nodes of the plan, of which nothing is asked yet.
    pub fn nodes(&self) -> Few<Node, 100>
        ensures { items_in result ≡ nodes_in_words self.now }
    {
        match plan_from(further(self.line.as_slice())) {
            Some(nodes) => nodes,
            None => Few::new(Node::open(0, 1)),
        }
    }

    // The nodes of the plan, and the line that may be an answer.
    pub fn verdict(&self) -> VerdictText
        ensures { asked result ≡ verdict_in_words self.now }
    {
        match verdict_from(further(self.line.as_slice())) {
            Some(text) => text,
            None => VerdictText {
                nodes: Few::new(Node::open(0, 1)),
                columns: [0; 8],
            },
        }
    }
}
