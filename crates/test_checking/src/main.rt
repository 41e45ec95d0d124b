// Tests of sealing, checking and reading. Each module says what its lines are, and which file of reference/ writes
// what they must be.
#![tactic(auto)]

mod check_cases;
mod check_refusals;
mod check_thousand;
mod lines;
mod round_trip;
mod sixteen;

use std::io;

fn main(rt: HostRuntime) -> io::Result<()> {
    round_trip::run(&rt)?;
    check_cases::run(&rt)?;
    check_refusals::run(&rt)?;
    check_thousand::run(&rt)
}
