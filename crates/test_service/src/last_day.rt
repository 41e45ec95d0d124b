// The close of day 65,536 of a made-up record, for each scheme, N 1, 8, 256 and the seasons 0, 65,534 and 65,535.
// Writes, a line each: the number of values (or 'NO,' and the refusal) and the SHA-256 of what was written; then the
// answer of one more add, which opens the next season but in the last; then the same two lines of one more close.
// reference/last_day.py writes what they must be.
use refusals::Refusal;
use service::{Closed, Record};
use std::io;
use test_samples::{answers, print, records};

// Writes what the close answered, and the SHA-256 of its values at the front of the part.
fn print_close(rt: &HostRuntime, answer: Result<Closed, Refusal>, part: &[u8]) -> io::Result<()> {
    match answer {
        Ok(closed) => {
            print::number_line(rt, closed.values)?;
            let n = answers::past(0, closed.values, part.len());
            print::digest_line(rt, &part[..n])
        }
        Err(refusal) => print::refused(rt, refusal.number()),
    }
}

// Writes the answer of one more add, and what one more close answered.
fn print_next(rt: &HostRuntime, state: &mut Record, part: &mut [u8]) -> io::Result<()> {
    let added = service::add(state, b"abc");
    print::number_line(rt, refusals::number_of(&added))?;
    let closed = service::close(state, part);
    print_close(rt, closed, part)
}

// Closes the day with three bytes more.
fn close(state: &mut Record, part: &mut [u8]) -> Result<Closed, Refusal> {
    service::add(state, b"abc")?;
    service::close(state, part)
}

fn lines(rt: &HostRuntime, scheme: u32, n: u32, season: u32) -> io::Result<()> {
    let mut part = [0u8; 576];
    let mut state = records::made_up(scheme, n, 1, season, 65535, 0);
    let closed = close(&mut state, &mut part);
    print_close(rt, closed, &part)?;
    print_next(rt, &mut state, &mut part)
}

pub fn run(rt: &HostRuntime) -> io::Result<()> {
    for scheme in 1..=3 {
        for n in [1, 8, 256] {
            for season in [0, 65534, 65535] {
                lines(rt, scheme, n, season)?;
            }
        }
    }
    Ok(())
}
