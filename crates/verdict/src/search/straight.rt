// The search without taking a choice back: most rows that can be out together are found so, and then there is no need to look ahead.
ghost use Rattle.std.specs.Prelude.{◌≡◌, ◌+◌, ◌<◌, ◌≤◌, ⊤, MatchBool, MatchOption, length};
ghost use Rattle.ordered.specs.Lists.{items_in};
ghost use Rattle.cores.specs.Backing.{Real};
ghost use Rattle.verdict.specs.Marking.{lists_of};
ghost use Rattle.verdict.specs.Trying.{Chosen, Found};

use super::Search;
use ordered::Few;

impl Search<'_> {
    // These choices, and for the next row that is to be out the first conflict after which the search can go on.
    fn with_next(&self, marks: &mut [u8], choices: &[usize]) -> Option<Few<usize, 6>>
        requires room { 256 ≤ length marks.old }
        requires six { length self.now.outs.now ≤ 6 }
        requires few { length choices.now < length self.now.outs.now }
        requires real { Real (lists_of self.now.conflicts.now) self.now.outs.now choices.now }
        ensures { MatchOption result ⊤ (λ more. (length (items_in more) ≡ length choices.now + 1) ×
            Chosen (lists_of self.now.conflicts.now) self.now.ins.now self.now.outs.now (items_in more) marks.new) }
    {
        for choice in self.first(marks, choices.len())..self.conflicts.len() {
            let mut more = Few::of(choices, 0);
            more.push(choice);
            if self.admits(marks, more.as_slice()) {
                return Some(more);
            }
        }
        None
    }

    // Whether choices are found so; then the rows that show it are marked.
    pub fn finds_straight(&self, marks: &mut [u8]) -> bool
        requires room { 256 ≤ length marks.old }
        requires six { length self.now.outs.now ≤ 6 }
        ensures { MatchBool result (Found (lists_of self.now.conflicts.now) self.now.ins.now self.now.outs.now marks.new) ⊤ }
    {
        if !self.stands(marks, &[]) {
            return false;
        }
        let mut choices = Few::new(0);
        for _ in self.outs {
            let Some(more) = self.with_next(marks, choices.as_slice()) else {
                return false;
            };
            choices = more;
        }
        true
    }
}
