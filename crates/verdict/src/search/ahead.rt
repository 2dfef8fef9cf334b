// A look ahead, before the search: so it is seen that two rows cannot be out together, however many rows stand between them.
ghost use Rattle.std.specs.Prelude.{◌≡◌, ◌<◌, ◌≤◌, ◌∷◌, ⊤, MatchBool, length};
ghost use Rattle.ordered.specs.Lists.{items_in};
ghost use Rattle.cores.specs.Backing.{NoneWorks};
ghost use Rattle.verdict.specs.Marking.{lists_of};

use super::Search;
use ordered::Few;

// These places, and one more before them.
fn with_first(first: u16, places: &[u16]) -> Few<u16, 7>
    requires { length places.now ≤ 6 }
    ensures { items_in result ≡ first ∷ places.now }
{
    let mut all = Few::of(&[first], 0);
    for place in places {
        all.push(*place);
    }
    all
}

impl Search<'_> {
    // Whether some conflict of the first row that is to be out leaves the search open; if none does, it has no end.
    fn can_start(&self, marks: &mut [u8]) -> bool
        requires room { 256 ≤ length marks.old }
        requires some { 0 < length self.now.outs.now }
        ensures { MatchBool result ⊤ (NoneWorks (lists_of self.now.conflicts.now) self.now.ins.now self.now.outs.now) }
    {
        for choice in 0..self.conflicts.len() {
            if self.admits(marks, &[choice]) {
                return true;
            }
        }
        false
    }

    // The same, whichever row that is to be out comes first; of one or two the search itself finds out as soon.
    pub fn can_start_at_each(&self, marks: &mut [u8]) -> bool
        requires room { 256 ≤ length marks.old }
        requires six { length self.now.outs.now ≤ 6 }
        ensures { MatchBool result ⊤ (NoneWorks (lists_of self.now.conflicts.now) self.now.ins.now self.now.outs.now) }
    {
        if self.outs.len() < 3 {
            return true;
        }
        for out in self.outs {
            let outs = with_first(*out, self.outs);
            let turned = Search {
                conflicts: self.conflicts,
                ins: self.ins,
                outs: outs.as_slice(),
            };
            if !turned.can_start(marks) {
                return false;
            }
        }
        true
    }
}
