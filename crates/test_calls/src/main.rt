// Each call for C, its arguments by position: scheme 2, N 8, F 3 and D 24, which in any other order are refused,
// and arrays of other lengths. A line has the call, what it returned, and what it wrote: numbers, outcomes, listed
// days, the lowest bytes of the six numbers of a record, the first 32 bytes of a part, of a book, of digests.
// reference/calls.py writes what the lines must be.
#![tactic(auto)]

mod ledgers;
mod lines;
mod records;

use std::io;

fn main(rt: HostRuntime) -> io::Result<()> {
    records::run(&rt)?;
    ledgers::run(&rt)?;
    lines::head(&rt, b"version", daybook_c::daybook_version())?;
    lines::end(&rt)
}
