// A ledger of sixteen days, checked at N 4 and F 1.
ghost use Rattle.std.specs.Prelude.{◌≡◌, ◌≤◌, length};

use crate::lines;
use std::io;
use test_samples::calls::Setup;
use test_samples::{as_u32, days, print};

// The days: 1000 * g + n is day g with n bytes.
pub fn sample() -> [usize; 16] {
    [
        1001, 2054, 3055, 4056, 5062, 6063, 7064, 8065, 9000, 10118, 11119, 12120, 13126, 14127,
        15128, 16002,
    ]
}

pub fn setup(scheme: u32) -> Setup {
    Setup::new(scheme, 4, 1, 16)
}

// The number of values.
pub fn values(scheme: u32) -> usize
    ensures { (1 ≤ result) × (result ≤ 32) }
{
    match scheme {
        1 => 4,
        2 => 16,
        _ => 32,
    }
}

// Writes the days end to end, and their ends.
pub fn build(sample: [usize; 16], ledger: &mut [u8], ends: &mut [u32])
    requires { length ends.old ≡ 16 }
{
    let mut at = 0;
    for (day, end) in sample.iter().zip(ends.iter_mut()) {
        at = days::put(*day / 1000, *day % 1000, at, ledger);
        *end = as_u32(at);
    }
}

fn print_found(rt: &HostRuntime, scheme: u32, work: &[u8], outcomes: &[u8]) -> io::Result<()>
    requires { 32 ≤ length outcomes.now }
{
    let k = values(scheme);
    print::hex(rt, &outcomes[..k], 1)?;
    print::byte(rt, b' ')?;
    print::digest_line(rt, work)
}

// Checks a ledger against a book, and writes the line.
pub fn check(
    rt: &HostRuntime,
    name: &[u8],
    scheme: u32,
    ledger: &[u8],
    ends: &[u32],
    book: &[u8],
) -> io::Result<()> {
    let mut work = [0u8; 512];
    let mut outcomes = [9u8; 32];
    let s = setup(scheme);
    let number = s.check(ledger, ends, book, &mut work, &mut outcomes);
    lines::head(rt, scheme, name, number)?;
    print_found(rt, scheme, &work, &outcomes)
}
