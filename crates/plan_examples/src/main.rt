// Plans by example: what `fill` says of nodes, which lines are answers, and which are candidates.
#![tactic(auto)]

mod answers;
mod asked;
mod listed;
mod nodes;
mod told;

use std::io;

fn main(rt: HostRuntime) -> io::Result<()> {
    told::accepted(&rt)?;
    told::misnamed(&rt)?;
    told::poor(&rt)?;
    told::unfit(&rt)?;
    asked::leaves_and_choices(&rt)?;
    asked::pairs(&rt)?;
    asked::names(&rt)?;
    listed::candidates(&rt)
}
