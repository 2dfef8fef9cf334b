// A second look ahead: so it is seen that three rows cannot be out together, however many rows stand between them.
ghost use Rattle.std.specs.Prelude.{◌<◌, ◌≤◌, ⊤, MatchBool, length};
ghost use Rattle.cores.specs.Backing.{NoneWorks};
ghost use Rattle.verdict.specs.Marking.{lists_of};

use super::Search;

impl Search<'_> {
    // Whether the rows with these two numbers and each row after them can all be out, if the other rows need not be. The choices
    // that work for all rows work for any three of them; so where none work for some three, the search has no end.
    fn finds_each_third(&self, marks: &mut [u8], first: usize, second: usize) -> bool
        requires room { 256 ≤ length marks.old }
        requires first { first < length self.now.outs.now }
        requires second { second < length self.now.outs.now }
        ensures { MatchBool result ⊤ (NoneWorks (lists_of self.now.conflicts.now) self.now.ins.now self.now.outs.now) }
    {
        for third in second + 1..self.outs.len() {
            let three = [self.outs[first], self.outs[second], self.outs[third]];
            let alone = Search {
                conflicts: self.conflicts,
                ins: self.ins,
                outs: &three,
            };
            if !alone.seek(marks) {
                return false;
            }
        }
        true
    }

    // The same of the row with this number and each two after it.
    fn finds_each_second(&self, marks: &mut [u8], first: usize) -> bool
        requires room { 256 ≤ length marks.old }
        requires first { first < length self.now.outs.now }
        ensures { MatchBool result ⊤ (NoneWorks (lists_of self.now.conflicts.now) self.now.ins.now self.now.outs.now) }
    {
        for second in first + 1..self.outs.len() {
            if !self.finds_each_third(marks, first, second) {
                return false;
            }
        }
        true
    }

    // The same of each three.
    pub fn finds_each_three(&self, marks: &mut [u8]) -> bool
        requires room { 256 ≤ length marks.old }
        ensures { MatchBool result ⊤ (NoneWorks (lists_of self.now.conflicts.now) self.now.ins.now self.now.outs.now) }
    {
        for first in 0..self.outs.len() {
            if !self.finds_each_second(marks, first) {
                return false;
            }
        }
        true
    }
}
