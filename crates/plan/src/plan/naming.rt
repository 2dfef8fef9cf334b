// What a plan says of itself: its width, its leaves, and the rows that a line names there.
ghost use Rattle.std.specs.Prelude.{◌≡◌, ◌<◌, ◌≤◌, Bool, map, length, take, slice_index};
ghost use Rattle.std.specs.Fn.{FnReturnsAt};
ghost use Rattle.std.specs.List.{slice_get};
ghost use Rattle.store.specs.declared.row.Row.{Row};
ghost use Rattle.ordered.specs.Lists.{items_in};
ghost use Rattle.plan.specs.Answers.{plan_width};
ghost use Rattle.plan.specs.Gathering.{leaves_of};
ghost use Rattle.plan.specs.Leaves.{opens, named};
ghost use Rattle.plan.specs.Plans.{nodes_of, widths_of};
ghost use Rattle.plan.specs.Truths.{part_at, named_rows};

use super::Plan;
use crate::leaf::PlanLeaf;
use crate::line::Line;
use crate::step::Step;
use store::Row;

impl Plan {
    // Its nodes, each with its width and with where its line begins.
    pub fn steps(&self) -> &[Step]
        ensures { result.now ≡ items_in self.now.steps }
    {
        self.steps.as_slice()
    }

    // How many columns an answer has.
    pub fn width(&self) -> usize
        ensures width { result ≡ plan_width (nodes_of self.now) }
        ensures eight { result ≤ 8 }
    {
        self.steps()[self.steps.len() - 1].width as usize
    }

    // How many leaves there are.
    pub fn leaves(&self) -> usize
        ensures count { result ≡ length (leaves_of (nodes_of self.now)) }
        ensures six { result ≤ 6 }
    {
        self.leaves.len()
    }

    // The leaves, in the order of the nodes.
    pub fn leaf_list(&self) -> &[PlanLeaf]
        ensures { result.now ≡ leaves_of (nodes_of self.now) }
    {
        self.leaves.as_slice()
    }

    // The leaf with this number, counted from 0 in the order of the nodes.
    pub fn leaf(&self, number: usize) -> Option<PlanLeaf>
        ensures { result ≡ slice_get (leaves_of (nodes_of self.now)) number }
    {
        self.leaf_list().get(number).copied()
    }

    // The part of a line that is the line of the node at `k`. A node stays a number with a bound, here and below: a type for it
    // would have to borrow the plan.
    pub(super) fn part<'a>(&self, k: usize, line: &'a Line) -> &'a [u32]
        requires { k < length (nodes_of self.now) }
        ensures part { result.now ≡ part_at self.now line.now.columns k }
        ensures wide { length result.now ≡ slice_index (widths_of self.now) k }
    {
        let step = &self.steps()[k];
        let start = step.start as usize;
        &line.columns[start..start + step.width as usize]
    }

    // The row that a line names at a leaf.
    fn row_at(&self, leaf: &PlanLeaf, line: &Line) -> Row
        requires within { leaf.now.node < length (nodes_of self.now) }
        requires wide { slice_index (widths_of self.now) leaf.now.node ≡ opens leaf.now.fields }
        ensures { result ≡ named leaf.now.relation leaf.now.fields (part_at self.now line.now.columns leaf.now.node) }
    {
        leaf.named(self.part(leaf.node, line))
    }

    // The row that a line names at the leaf with this number.
    pub fn named(&self, number: usize, line: &Line) -> Option<Row>
        ensures { result ≡ slice_get (named_rows self.now line.now.columns) number }
    {
        Some(self.row_at(&self.leaf(number)?, line))
    }

    // Of each leaf, whether the row passes that a line names there. Six by value: of those past the last leaf nothing is said, and
    // `holds` looks at none of them.
    pub fn at_leaves<F: Fn(&Row) -> bool>(&self, line: &Line, passes: F) -> [bool; 6]
        requires { F.IsAlwaysCallable passes }
        ensures { (there : Row → Bool) → ((row : Row) (b : Bool) → FnReturnsAt F.Fn passes row b → b ≡ there row) → take (length (named_rows self.now line.now.columns)) result ≡ map there (named_rows self.now line.now.columns) }
    {
        let mut truth = [false; 6];
        for (number, leaf) in self.leaf_list().iter().enumerate() {
            truth[number] = passes(&self.row_at(leaf, line));
        }
        truth
    }
}
