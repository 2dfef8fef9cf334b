// The ways to say of each leaf's row whether it is in a reading.
ghost use Rattle.std.specs.Prelude.{◌≡◌, ◌≤◌, false, MatchOption, length};
ghost use Rattle.cores.specs.Ways.{bits, possible};
ghost use Rattle.verdict.specs.Sides.{Split};

use ordered::Few;

// The way with this number: its bits, the lowest first.
pub fn way_of(number: usize) -> [bool; 6]
    ensures { result ≡ bits number 6 }
{
    let mut way = [false; 6];
    let mut rest = number;
    for k in 0..6 {
        way[k] = rest % 2 == 1;
        rest /= 2;
    }
    way
}

// The places of the rows that a way says are in, and of those that it says are out.
#[derive(Clone, Copy)]
pub struct Sides {
    pub ins: Few<u16, 6>,
    pub outs: Few<u16, 6>,
}

// The two sides of a way, unless it says of a row that is not held that it is in.
pub fn split(leaves: &[Option<u16>], way: &[bool; 6]) -> Option<Sides>
    requires { length leaves.now ≤ 6 }
    ensures { MatchOption result (possible leaves.now way.now ≡ false) (Split leaves.now way.now) }
{
    let mut ins = Few::new(0);
    let mut outs = Few::new(0);
    for (k, leaf) in leaves.iter().enumerate() {
        match *leaf {
            Some(place) => {
                if way[k] {
                    ins.push(place);
                } else {
                    outs.push(place);
                }
            }
            None => {
                if way[k] {
                    return None;
                }
            }
        }
    }
    Some(Sides { ins, outs })
}
