// The book of a thousand days under each of the three layouts. Writes, a line each: the number of values, the SHA-256
// of the book, its first, middle and last value. reference/thousand.py writes what they must be.
ghost use Rattle.std.specs.Prelude.{◌+◌, ◌*◌, ◌≤◌, length};

use crate::books;
use crate::books::Ledger;
use std::io;
use test_samples::{as_u32, print};

// Writes value k of the book.
fn print_value(rt: &HostRuntime, book: &[u8], k: usize) -> io::Result<()>
    requires { 32 * k + 32 ≤ length book.now }
{
    print::hex_line(rt, &book[32 * k..32 * k + 32])
}

fn print_book(rt: &HostRuntime, book: &[u8]) -> io::Result<()> {
    let k = book.len() / 32;
    print::number_line(rt, as_u32(k))?;
    print::digest_line(rt, book)?;
    if k == 0 {
        return Ok(());
    }
    print_value(rt, book, 0)?;
    print_value(rt, book, k / 2)?;
    print_value(rt, book, k - 1)
}

fn lines(rt: &HostRuntime, scheme: u32, f: u32) -> io::Result<()> {
    let mut book = [0u8; 67584];
    match books::seal(scheme, 8, f, Ledger::Thousand, 131, false, &mut book) {
        Ok(n) => print_book(rt, &book[..n]),
        Err(refusal) => print::refused(rt, refusal.number()),
    }
}

pub fn run(rt: &HostRuntime) -> io::Result<()> {
    for (scheme, f) in [(1, 25), (2, 25), (3, 1)] {
        lines(rt, scheme, f)?;
    }
    Ok(())
}
