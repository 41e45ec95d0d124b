// A thousand days are sealed under each layout, then checked unaltered and with one bit altered in day 1, in day 500
// and in day 1000. A line is the scheme, the day altered or 0, the answer's number, the failing values and the
// SHA-256 of the outcomes; of the sealing it is the scheme, 'sealed', the answer's number and the SHA-256 of the
// book. reference/check_thousand.py writes what the lines must be.
ghost use Rattle.std.specs.Prelude.{◌≤◌};

use crate::lines;
use std::io;
use test_samples::calls::Setup;
use test_samples::{as_u32, days, lent, print};

// The values of a thousand days at N 8.
fn values(scheme: u32) -> usize
    ensures { result ≤ 2112 }
{
    match scheme {
        1 => 125,
        2 => 625,
        _ => 2112,
    }
}

// How many outcomes fail.
fn failing(outcomes: &[u8]) -> usize {
    outcomes.iter().filter(|x| **x == 0).count()
}

fn print_line(
    rt: &HostRuntime,
    scheme: u32,
    day: u32,
    number: u32,
    outcomes: &[u8],
) -> io::Result<()> {
    let numbers = [scheme, day, number, as_u32(failing(outcomes))];
    print::numbers(rt, &numbers, b' ')?;
    print::byte(rt, b' ')?;
    print::digest_line(rt, outcomes)
}

fn line(
    rt: &HostRuntime,
    s: Setup,
    day: u32,
    ledger: &[u8],
    ends: &[u32],
    book: &[u8],
) -> io::Result<()> {
    let mut outcomes = [9u8; 2112];
    let number = s.check_days(ledger, ends, book, &mut outcomes);
    let k = values(s.scheme);
    print_line(rt, s.scheme, day, number, &outcomes[..k])
}

// One bit of the byte at at altered.
fn altered(
    rt: &HostRuntime,
    s: Setup,
    day: u32,
    ledger: &mut [u8],
    ends: &[u32],
    book: &[u8],
    at: usize,
) -> io::Result<()> {
    lent::flip(ledger, at);
    line(rt, s, day, ledger, ends, book)?;
    lent::flip(ledger, at);
    Ok(())
}

// The first byte of day 1, the first of day 500 and the last of day 1000, which has 57 bytes.
fn checks(
    rt: &HostRuntime,
    s: Setup,
    ledger: &mut [u8],
    ends: &[u32],
    book: &[u8],
) -> io::Result<()> {
    line(rt, s, 0, ledger, ends, book)?;
    altered(rt, s, 1, ledger, ends, book, 0)?;
    altered(rt, s, 500, ledger, ends, book, days::start(ends, 500))?;
    altered(
        rt,
        s,
        1000,
        ledger,
        ends,
        book,
        days::start(ends, 1000) + 56,
    )
}

fn seal_and_check(rt: &HostRuntime, s: Setup, ledger: &mut [u8], ends: &[u32]) -> io::Result<()> {
    let mut book = [0u8; 67584];
    lines::sealed(rt, s, ledger, ends, &mut book, values(s.scheme))?;
    checks(rt, s, ledger, ends, &book)
}

fn layout(rt: &HostRuntime, scheme: u32, f: u32) -> io::Result<()> {
    let mut ledger = [0u8; 66000];
    let mut ends = [0u32; 1000];
    days::put_all(&mut ledger, &mut ends);
    seal_and_check(rt, Setup::new(scheme, 8, f, 1000), &mut ledger, &ends)
}

pub fn run(rt: &HostRuntime) -> io::Result<()> {
    for (scheme, f) in [(1, 25), (2, 25), (3, 1)] {
        layout(rt, scheme, f)?;
    }
    Ok(())
}
