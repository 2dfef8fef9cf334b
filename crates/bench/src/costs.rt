// What the calls of a round cost, and how that is printed.
use std::io;

// Nanoseconds for one call of each kind.
#[derive(Clone, Copy)]
pub(crate) struct Costs {
    pub(crate) entry: f64,
    pub(crate) strike: f64,
    pub(crate) rule: f64,
}

impl Costs {
    // For each kind the smaller of two.
    pub(crate) fn least(self, other: Costs) -> Costs {
        Costs {
            entry: self.entry.min(other.entry),
            strike: self.strike.min(other.strike),
            rule: self.rule.min(other.rule),
        }
    }

    // A line of the table: the costs at a number of rows, and their ratio to those of the size before.
    pub(crate) fn print(self, rt: &HostRuntime, rows: u32, before: Costs) -> io::Result<()> {
        print!(rt; "{rows:>5} rows")?;
        cost(rt, "entry", self.entry, before.entry)?;
        cost(rt, "strike", self.strike, before.strike)?;
        cost(rt, "rule", self.rule, before.rule)?;
        println!(rt; "")
    }
}

fn cost(rt: &HostRuntime, name: &str, now: f64, before: f64) -> io::Result<()> {
    let ratio = now / before;
    print!(rt; "  {name} {now:>9.1} ({ratio:.2})")
}
