// Going through the choices.
ghost use Rattle.std.specs.Prelude.{◌≤◌, MatchBool, length};
ghost use Rattle.cores.specs.Backing.{NoneWorks};
ghost use Rattle.verdict.specs.Marking.{lists_of};
ghost use Rattle.verdict.specs.Trying.{Found};

use super::Search;

impl Search<'_> {
    // Whether the rows that are to be in, and for each row that is to be out the others of some conflict of it, can all be in
    // with no whole conflict; then these are marked.
    pub fn seek(&self, marks: &mut [u8]) -> bool
        requires room { 256 ≤ length marks.old }
        requires six { length self.now.outs.now ≤ 6 }
        ensures { MatchBool result
            (Found (lists_of self.now.conflicts.now) self.now.ins.now self.now.outs.now marks.new)
            (NoneWorks (lists_of self.now.conflicts.now) self.now.ins.now self.now.outs.now) }
    {
        if !self.are_bound() {
            return false;
        }
        if !self.stands(marks, &[]) {
            return false;
        }
        if self.outs.is_empty() {
            return true;
        }
        let mut choices = [0; 6];
        choices[0] = self.first(marks, 0);
        let mut depth = 0;
        'found: loop {
            // the conflicts of the row that is out at this depth
            while choices[depth] < self.conflicts.len() {
                if self.admits(marks, &choices[..depth + 1]) {
                    if depth + 1 == self.outs.len() {
                        break 'found true;
                    }
                    depth += 1;
                    choices[depth] = self.first(marks, depth);
                } else {
                    choices[depth] += 1;
                }
            }
            if depth == 0 {
                break false;
            }
            depth -= 1;
            choices[depth] = self.after(marks, &choices[..depth + 1]);
        }
    }
}
