// Tests of the service. Each module says what its lines are, and which file of reference/ writes what they must be.
#![tactic(auto)]

mod books;
mod compare;
mod last_day;
mod service_refusals;
mod short_ledgers;
mod thousand;

use std::io;

fn main(rt: HostRuntime) -> io::Result<()> {
    thousand::run(&rt)?;
    short_ledgers::run(&rt)?;
    last_day::run(&rt)?;
    service_refusals::run(&rt)
}
