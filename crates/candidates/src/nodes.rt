// The search at each node of a plan. It goes down the nodes: each names earlier ones only. What the choices above want goes with
// it, so that a comparison is tested as soon as its columns are chosen.
use crate::search::Search;
use crate::wanted::Wanted;
use plan::{Node, Op, Plan, PlanLeaf};
use std::ops::Bound;
use store::Source;

// The candidates of a plan over the rows of a source.
#[derive(Drop)]
pub struct Candidates<'a, S> {
    pub source: &'a S,
    pub plan: &'a Plan,
}

impl<S: Source> Candidates<'_, S> {
    ghost use Rattle.std.specs.Prelude.{◌≡◌, ◌+◌, ◌<◌, ◌≤◌, take, length, filter, slice_index, slice_index_or};
    ghost use Rattle.std.specs.Range.Bound.{bound_map};
    ghost use Rattle.ordered.specs.Lists.{items_in};
    ghost use Rattle.store.specs.Held.{rows_of};
    ghost use Rattle.plan.specs.Leaves.{opens, leaf_lines};
    ghost use Rattle.plan.specs.Nodes.{blank};
    ghost use Rattle.plan.specs.Plans.{nodes_of, widths_of, starts_of};
    ghost use Rattle.plan.specs.declared.node.Op.TheVariants.{Product};
    ghost use Rattle.plan.specs.declared.node.Node.TheVariants.{Pair};
    ghost use Rattle.candidates.specs.Seeking.{Least, Finds};
    ghost use Rattle.candidates.specs.Wanting.{passes};

    // At a leaf, whose line begins at that column: one scan of the places.
    fn at_leaf(
        &self,
        leaf: &PlanLeaf,
        search: Search,
        wanted: &Wanted,
        at: usize,
    ) -> Option<[u32; 8]>
        requires wide { search.width ≡ opens leaf.now.fields }
        requires room { at + search.width ≤ 8 }
        ensures { Least (filter (passes (items_in wanted.now.comparisons) (take at wanted.now.known)) (leaf_lines leaf.now.relation leaf.now.fields (rows_of (S.Source.model self.now.source.now).places))) (bound_map (take search.width) search.start) search.width result }
    {
        let mut least = None;
        for place in 0..self.source.places() {
            if let Some(row) = self.source.read(place) {
                least = search.lesser(least, search.least_of(leaf, &row, wanted, at));
            }
        }
        least
    }

    // How wide the line of the node at `k` is.
    fn width(&self, k: usize) -> usize
        requires { k < length (nodes_of self.now.plan.now) }
        ensures { result ≡ slice_index (widths_of self.now.plan.now) k }
    {
        self.plan.steps()[k].width as usize
    }

    // Where in the plan's line it begins.
    fn begin(&self, k: usize) -> usize
        requires { k < length (nodes_of self.now.plan.now) }
        ensures { result ≡ slice_index (starts_of self.now.plan.now) k }
    {
        self.plan.steps()[k].start as usize
    }

    // A search among lines as wide as that, from the start on.
    fn search(&self, k: usize, start: Bound<[u32; 8]>) -> Search
        requires { k < length (nodes_of self.now.plan.now) }
        ensures start { result.start ≡ start }
        ensures width { result.width ≡ slice_index (widths_of self.now.plan.now) k }
    {
        Search {
            start,
            width: self.width(k),
        }
    }

    // The least line of the node at `k` that passes, from the start on.
    #[cycle(least)]
    pub fn least(&self, k: usize, start: Bound<[u32; 8]>, wanted: &Wanted) -> Option<[u32; 8]>
        requires within { k < length (nodes_of self.now.plan.now) }
        requires few { length (items_in wanted.now.comparisons) + k < 16 }
        ensures { Finds (rows_of (S.Source.model self.now.source.now).places) self.now.plan.now k wanted.now start result }
    {
        match self.plan.steps()[k].node {
            Node::Leaf {
                relation,
                arity,
                fields,
            } => self.at_leaf(
                &PlanLeaf::new(k, relation, arity, fields),
                self.search(k, start),
                wanted,
                self.begin(k),
            ),
            Node::Choice { node, comparison } => {
                let node = node as usize;
                let more = wanted.also(&comparison, self.begin(k), self.width(node));
                self.least(node, start, &more)
            }
            Node::Pair { op, left, right } => match op {
                Op::Product => self.at_product(k, left as usize, right as usize, start, wanted),
                Op::Union => self.search(k, start).lesser(
                    self.least(left as usize, start, wanted),
                    self.least(right as usize, start, wanted),
                ),
                Op::Difference => self.least(left as usize, start, wanted),
            },
        }
    }

    // At a product: the first line on the right behind the first on the left that has one.
    #[cycle(least)]
    fn at_product(
        &self,
        k: usize,
        left: usize,
        right: usize,
        start: Bound<[u32; 8]>,
        wanted: &Wanted,
    ) -> Option<[u32; 8]>
        requires within { k < length (nodes_of self.now.plan.now) }
        requires few { length (items_in wanted.now.comparisons) + k < 16 }
        requires stands { slice_index_or (nodes_of self.now.plan.now) k blank ≡ Pair Product left right }
        ensures { Finds (rows_of (S.Source.model self.now.source.now).places) self.now.plan.now k wanted.now start result }
    {
        let search = self.search(k, start);
        let start_line = search.line();
        let cut = self.width(left);
        let at = self.begin(k);
        // A right side that has no line for itself has none behind any left line.
        self.least(right, Bound::Unbounded, &wanted.alone(at + cut))?;
        let on_left = search.on_left(cut);
        let mut next = self.least(left, on_left.start, wanted);
        while let Some(first) = next {
            let past = on_left.is_before(&start_line, &first);
            let on_right = search.on_right(cut, past);
            if let Some(second) = self.least(
                right,
                on_right.start,
                &wanted.behind(at, &first, cut),
            ) {
                return Some(search.joined(first, &second, cut));
            }
            next = self.least(left, Bound::Excluded(first), wanted);
        }
        None
    }
}
