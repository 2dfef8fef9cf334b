// Where in a plan's line the line of each node begins.
ghost use Rattle.std.specs.Prelude.{◌≡◌, ◌+◌, ◌≤◌, length, Some, MatchResult};
ghost use Rattle.ordered.specs.Lists.{items_in};
ghost use Rattle.plan.specs.Filling.{unfit_at, Spots};
ghost use Rattle.plan.specs.Parts.{right_start};
ghost use Rattle.plan.specs.Steps.{Laid};

use crate::node::{Node, Op};
use crate::step::{Step, begin_at};
use crate::tree::Tree;
use ordered::Few;

// Where the right line of a pair begins, if the pair's begins at `start` and the left one is this wide.
fn right_start(op: Op, start: u8, left: u8) -> u8
    requires { start + left ≤ 8 }
    ensures { result ≡ right_start op start left }
{
    match op {
        Op::Product => start + left,
        Op::Union | Op::Difference => start,
    }
}

impl Tree<'_> {
    // Each node with its width and with where its line begins, or the first that does not fit. From the last node down each
    // tells those that it names: each node but the last is named by one later node.
    pub fn steps(&self) -> Result<Few<Step, 16>, usize>
        ensures { MatchResult result (λ steps. Laid self.now.nodes.now (items_in steps)) (λ k. Spots (unfit_at self.now.nodes.now) (length self.now.nodes.now) (Some k)) }
    {
        let mut steps = self.measure()?;
        // Tried with `self.nodes.iter().enumerate().rev()`: the invariant has no index there, and the proof did not close.
        for k in (0..self.nodes.len()).rev() {
            let start = steps.as_slice()[k].start;
            match self.nodes[k] {
                Node::Leaf { .. } => {}
                Node::Choice { node, .. } => begin_at(&mut steps, node as usize, start),
                Node::Pair { op, left, right } => {
                    let width = steps.as_slice()[left as usize].width;
                    begin_at(&mut steps, left as usize, start);
                    begin_at(&mut steps, right as usize, right_start(op, start, width));
                }
            }
        }
        Ok(steps)
    }
}
