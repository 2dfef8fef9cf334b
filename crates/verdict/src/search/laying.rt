// Marking what some choices ask for, and whether the search can go on from there.
ghost use Rattle.std.specs.Prelude.{◌≡◌, ℕ, ◌<◌, ◌≤◌, ◌-◌, true, MatchBool, List, [], length, take, slice_index, slice_index_or};
ghost use Rattle.store.specs.Lists.{any, all};
ghost use Rattle.rules.specs.Views.{listed_as};
ghost use Rattle.cores.specs.Backing.{backing, one_of};
ghost use Rattle.cores.specs.Searching.{NoneBeyond};
ghost use Rattle.verdict.specs.Marking.{lists_of, is_left, Shows, NoneShut};
ghost use Rattle.verdict.specs.Trying.{Numbers, Stand, Admits, Left, Follows};

use super::Search;
use crate::marks::{SHUT, mark_each, mark_others, says, wipe};
use crate::settling::{first_free, is_bound, is_free, is_open, settle, touches};

impl Search<'_> {
    // Marks the rows that are to be in, and for each of these choices, which are made for the first rows that are to be out,
    // the others of its conflict; and nothing else.
    fn lay(&self, marks: &mut [u8], choices: &[usize])
        requires room { 256 ≤ length marks.old }
        requires few { length choices.now ≤ length self.now.outs.now }
        requires real { Numbers (length self.now.conflicts.now) choices.now }
        ensures shows { Shows (backing (lists_of self.now.conflicts.now) self.now.ins.now self.now.outs.now choices.now) marks.new }
        ensures none { NoneShut marks.new }
    {
        wipe(marks);
        mark_each(marks, self.ins);
        for (k, choice) in choices.iter().enumerate() {
            mark_others(marks, self.conflicts[*choice].places(), self.outs[k]);
        }
    }

    // Whether each row that is to be out is in some conflict: a row that is in none is in every reading.
    pub fn are_bound(&self) -> bool
        ensures { result ≡ all (λ out. any (λ c. one_of (listed_as c).places out) self.now.conflicts.now) self.now.outs.now }
    {
        self.outs.iter().all(|out| is_bound(self.conflicts, *out))
    }

    // Whether each of these rows can still be shut out.
    fn are_open(&self, marks: &[u8], outs: &[u16]) -> bool
        ensures { result ≡ all (λ out. any (λ c. is_left marks.now out (listed_as c).places) self.now.conflicts.now) outs.now }
    {
        outs.iter().all(|out| is_open(marks, self.conflicts, *out))
    }

    // Marks what these choices ask for, and tells whether the search can go on from there.
    pub fn stands(&self, marks: &mut [u8], choices: &[usize]) -> bool
        requires room { 256 ≤ length marks.old }
        requires few { length choices.now ≤ length self.now.outs.now }
        requires real { Numbers (length self.now.conflicts.now) choices.now }
        ensures { MatchBool result
            (Stand (lists_of self.now.conflicts.now) self.now.ins.now self.now.outs.now choices.now marks.new)
            (NoneBeyond (lists_of self.now.conflicts.now) self.now.ins.now self.now.outs.now choices.now) }
    {
        self.lay(marks, choices);
        settle(marks, self.conflicts) && self.are_open(marks, &self.outs[choices.len()..])
    }

    // The same, where the last choice is yet to be tried; it has to be a conflict of the row that it is made for.
    pub fn admits(&self, marks: &mut [u8], choices: &[usize]) -> bool
        requires room { 256 ≤ length marks.old }
        requires some { 0 < length choices.now }
        requires few { length choices.now ≤ length self.now.outs.now }
        requires real { Numbers (length self.now.conflicts.now) choices.now }
        ensures { MatchBool result
            (Admits (lists_of self.now.conflicts.now) self.now.ins.now self.now.outs.now choices.now marks.new)
            (NoneBeyond (lists_of self.now.conflicts.now) self.now.ins.now self.now.outs.now choices.now) }
    {
        let last = choices.len() - 1;
        touches(self.conflicts[choices[last]].places(), self.outs[last])
            && self.stands(marks, choices)
    }

    // The first conflict to try for the row with this number, where the choices before it stand: one that asks for nothing
    // more, if the row is shut out already.
    pub fn first(&self, marks: &[u8], number: usize) -> usize
        requires { number < length self.now.outs.now }
        ensures { (chosen : List ℕ) → length chosen ≡ number → Stand (lists_of self.now.conflicts.now) self.now.ins.now self.now.outs.now chosen marks.now →
            Left (lists_of self.now.conflicts.now) self.now.ins.now self.now.outs.now chosen result }
    {
        let out = self.outs[number];
        if !says(marks, out as usize, SHUT) {
            return 0;
        }
        first_free(marks, self.conflicts, out).unwrap_or(0)
    }

    // The next conflict to try after the last of these choices: none, if that one asked for nothing more than those before it.
    pub fn after(&self, marks: &mut [u8], choices: &[usize]) -> usize
        requires room { 256 ≤ length marks.old }
        requires some { 0 < length choices.now }
        requires few { length choices.now ≤ length self.now.outs.now }
        requires real { Numbers (length self.now.conflicts.now) choices.now }
        ensures more { slice_index choices.now (length choices.now - 1) < result }
        ensures left { Follows (lists_of self.now.conflicts.now) self.now.ins.now self.now.outs.now (take (length choices.now - 1) choices.now) (slice_index choices.now (length choices.now - 1)) result }
    {
        let last = choices.len() - 1;
        self.lay(marks, &choices[..last]);
        let choice = choices[last];
        if is_free(marks, self.conflicts[choice].places(), self.outs[last]) {
            return self.conflicts.len();
        }
        choice + 1
    }
}
