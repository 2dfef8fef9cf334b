// Whether a line is an answer, from whether the rows are there that it names.
ghost use Rattle.std.specs.Prelude.{◌≡◌, ◌<◌, ◌≤◌, false, List, length, slice_index_or};
ghost use Rattle.store.specs.declared.row.Row.{Row};
ghost use Rattle.plan.specs.Answers.{plan_width, is_answer};
ghost use Rattle.plan.specs.Filling.{Spots};
ghost use Rattle.plan.specs.Nodes.{blank};
ghost use Rattle.plan.specs.Plans.{nodes_of};
ghost use Rattle.plan.specs.Truths.{part_at, combined, truth_of, line_fits, over, plan_truth, Tells};

use super::Plan;
use crate::choice::is_chosen;
use crate::line::Line;
use crate::node::{Node, Op};
use ordered::Few;

// The truth of a pair, from that of its two nodes.
fn combine(op: Op, left: bool, right: bool) -> bool
    ensures { result ≡ combined op left right }
{
    match op {
        Op::Product => left && right,
        Op::Union => left || right,
        Op::Difference => left && !right,
    }
}

impl Plan {
    // The first column from the plan's width on that is not zero; an answer has none.
    pub fn past(&self, line: &Line) -> Option<usize>
        ensures { Spots (over (plan_width (nodes_of self.now)) line.now.columns) (length line.now.columns) result }
    {
        (self.width()..8).find(|column| line.columns[*column] != 0)
    }

    // Whether the line is zero from the plan's width on, as every answer is.
    pub fn fits(&self, line: &Line) -> bool
        ensures { result ≡ line_fits (plan_width (nodes_of self.now)) line.now.columns }
    {
        self.past(line).is_none()
    }

    // The truth of the node at `k`, which is no leaf, from that of the nodes before it.
    fn truth_at(&self, k: usize, line: &Line, truths: &[bool]) -> bool
        requires within { k < length (nodes_of self.now) }
        requires earlier { k ≤ length truths.now }
        ensures { result ≡ truth_of false (part_at self.now line.now.columns k) truths.now (slice_index_or (nodes_of self.now) k blank) }
    {
        match self.steps.as_slice()[k].node {
            Node::Leaf { .. } => false,
            Node::Choice { node, comparison } => {
                truths[node as usize] && is_chosen(self.part(k, line), &comparison)
            }
            Node::Pair { op, left, right } => combine(
                op,
                truths[left as usize],
                truths[right as usize],
            ),
        }
    }

    // Whether the line is an answer, where `truth` tells for each leaf whether the row is there that the line names.
    pub fn holds(&self, line: &Line, truth: &[bool; 6]) -> bool
        ensures told { result ≡ plan_truth self.now line.now.columns truth.now }
        ensures means { (rows : List Row) → Tells self.now line.now.columns rows truth.now → result ≡ is_answer (nodes_of self.now) rows line.now.columns }
    {
        if !self.fits(line) {
            return false;
        }
        let mut truths = Few::<bool, 16>::new(false);
        let mut told = truth.iter();
        for (k, step) in self.steps.as_slice().iter().enumerate() {
            if let Node::Leaf { .. } = step.node {
                truths.push(*told.next().unwrap_or(&false));
            } else {
                truths.push(self.truth_at(k, line, truths.as_slice()));
            }
        }
        truths.as_slice()[self.steps.len() - 1]
    }
}
