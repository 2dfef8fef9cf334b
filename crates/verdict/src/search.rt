// The search for a conflict to each row that is to be out.
ghost use Rattle.std.specs.Prelude.{◌≡◌, ◌≤◌, true, MatchBool, length};
ghost use Rattle.store.specs.Lists.{all};
ghost use Rattle.cores.specs.Backing.{NoneWorks};
ghost use Rattle.verdict.specs.Marking.{lists_of, have_bytes};
ghost use Rattle.verdict.specs.Trying.{Found};

use rules::Conflict;

pub mod ahead;
pub mod laying;
pub mod seeking;
pub mod straight;
pub mod threes;

// The places of some rows that are to be in a reading, and of others that are to be out of it.
#[derive(Clone, Copy)]
pub struct Search<'a> {
    pub conflicts: &'a [Conflict],
    pub ins: &'a [u16],
    pub outs: &'a [u16],
    ghost inside: { all have_bytes (lists_of conflicts.now) ≡ true },
    ghost near: { have_bytes ins.now ≡ true },
    ghost few: { length outs.now ≤ 7 },
}

impl Search<'_> {
    // Whether the rows can be in and out as they are to be; then the rows that show it are marked. The looks ahead see two or three
    // rows that cannot be out together, which the search alone would find out anew for each choice of the rows before them. It is
    // as quick of three rows or fewer, and of most that can be out: these have no need of the second look.
    pub fn find(&self, marks: &mut [u8]) -> bool
        requires room { 256 ≤ length marks.old }
        requires six { length self.now.outs.now ≤ 6 }
        ensures { MatchBool result
            (Found (lists_of self.now.conflicts.now) self.now.ins.now self.now.outs.now marks.new)
            (NoneWorks (lists_of self.now.conflicts.now) self.now.ins.now self.now.outs.now) }
    {
        if !self.can_start_at_each(marks) {
            return false;
        }
        if self.outs.len() < 4 {
            return self.seek(marks);
        }
        self.finds_straight(marks) || self.finds_each_three(marks) && self.seek(marks)
    }
}
