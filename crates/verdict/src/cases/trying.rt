// Trying each way.
ghost use Rattle.std.specs.Prelude.{◌≡◌, ◌≤◌, MatchBool, length};
ghost use Rattle.cores.specs.Settling.{lost_by, NoWay};
ghost use Rattle.cores.specs.Ways.{bits};
ghost use Rattle.verdict.specs.Marking.{lists_of};
ghost use Rattle.verdict.specs.Trying.{Lost, Kept};

use super::Cases;
use crate::search::Search;
use crate::sides::{split, way_of};

impl Cases<'_> {
    // Whether the way with this number makes the line no answer, and can be; then the rows that show it are marked.
    fn try_way(&self, marks: &mut [u8], number: usize) -> bool
        requires { 256 ≤ length marks.old }
        ensures { MatchBool result
            (Lost (lists_of self.now.conflicts.now) (lost_by self.now.plan.now self.now.line.now.columns) self.now.leaves.now marks.new)
            (Kept (lists_of self.now.conflicts.now) (lost_by self.now.plan.now self.now.line.now.columns) self.now.leaves.now (bits number 6)) }
    {
        let way = way_of(number);
        if self.plan.holds(self.line, &way) {
            return false;
        }
        let Some(sides) = split(self.leaves, &way) else {
            return false;
        };
        let search = Search {
            conflicts: self.conflicts,
            ins: sides.ins.as_slice(),
            outs: sides.outs.as_slice(),
        };
        search.find(marks)
    }

    // Whether some way makes the line no answer, and can be; then the rows that show it are marked.
    pub fn try_each(&self, marks: &mut [u8]) -> bool
        requires { 256 ≤ length marks.old }
        ensures { MatchBool result
            (Lost (lists_of self.now.conflicts.now) (lost_by self.now.plan.now self.now.line.now.columns) self.now.leaves.now marks.new)
            (NoWay (lists_of self.now.conflicts.now) (lost_by self.now.plan.now self.now.line.now.columns) self.now.leaves.now) }
    {
        for number in 0..1usize << self.leaves.len() {
            if self.try_way(marks, number) {
                return true;
            }
        }
        false
    }
}
