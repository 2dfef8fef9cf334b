// What the check of a page costs.
use crate::load::Load;
use crate::trouble::Trouble;
use page::{check, write_page};
use rink::ARITIES;
use std::array;
use std::time::Instant;

const CHECKS: u32 = 1000;

// Measures the check of a full page of 256 different rows, in microseconds.
pub(crate) fn full_page(rt: &HostRuntime) -> Result<(), Trouble> {
    let places: [_; 256] = array::from_fn(|number| Some(Load::Pairs.row(number as u32)));
    let mut bytes = [0; 5120];
    let _ = write_page(&places, &mut bytes);
    let start = Instant::now(rt)?;
    let passed = (0..CHECKS)
        .filter(|_| check(&bytes, &ARITIES).is_ok())
        .count();
    let took = start.elapsed(rt)?.as_secs_f64() * 1000000.0 / f64::from(CHECKS);
    println!(rt; "check of a full page: {took:.1} microseconds ({passed} of {CHECKS} passed)")?;
    Ok(())
}
