// The least time of a call that is made again and again.
use crate::trouble::Trouble;
use book::Refusal;
use std::time::Instant;

const CALLS: u32 = 1000;

const SECONDS: f64 = 0.1;

// How long the fastest call took, and what a call told.
#[derive(Clone, Copy)]
pub(crate) struct Timed<T> {
    pub(crate) microseconds: f64,
    pub(crate) told: T,
}

// The fastest of a thousand calls, or of as many as there is time for.
pub(crate) fn least<T: Drop, F: FnMut() -> Result<T, Refusal>>(
    rt: &HostRuntime,
    mut call: F,
) -> Result<Timed<T>, Trouble>
    requires { F.IsAlwaysCallable call }
{
    let begun = Instant::now(rt)?;
    let told = call()?;
    let mut seconds = begun.elapsed(rt)?.as_secs_f64();
    for _ in 1..CALLS {
        if begun.elapsed(rt)?.as_secs_f64() > SECONDS {
            break;
        }
        let start = Instant::now(rt)?;
        call()?;
        seconds = seconds.min(start.elapsed(rt)?.as_secs_f64());
    }
    Ok(Timed {
        microseconds: seconds * 1000000.0,
        told,
    })
}
