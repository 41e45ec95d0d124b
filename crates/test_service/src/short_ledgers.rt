// Books of sixteen days whose lengths meet the block bounds, each sealed in four cuttings of its days: whole, byte by
// byte, in pieces of 7, in pieces of 64 with an empty piece after each. Writes for each scheme the number of values
// and the SHA-256 of the book, and 'differs' for a cutting with another book. reference/short_ledgers.py writes what
// they must be.
ghost use Rattle.std.specs.Prelude.{◌<◌};

use crate::books;
use crate::books::Ledger;
use std::io;
use test_samples::{as_u32, print};

// Seals in another cutting, and compares.
fn compare(rt: &HostRuntime, book: &[u8], scheme: u32, piece: usize, gap: bool) -> io::Result<()>
    requires { 0 < piece }
{
    let mut other = [0u8; 1024];
    match books::seal(scheme, 4, 1, Ledger::Short, piece, gap, &mut other) {
        Ok(n) if book == &other[..n] => Ok(()),
        _ => print::bytes(rt, b"differs\n"),
    }
}

fn print_book(rt: &HostRuntime, book: &[u8], scheme: u32) -> io::Result<()> {
    print::number_line(rt, as_u32(book.len() / 32))?;
    print::digest_line(rt, book)?;
    compare(rt, book, scheme, 1, false)?;
    compare(rt, book, scheme, 7, false)?;
    compare(rt, book, scheme, 64, true)
}

fn lines(rt: &HostRuntime, scheme: u32) -> io::Result<()> {
    let mut book = [0u8; 1024];
    match books::seal(scheme, 4, 1, Ledger::Short, 131, false, &mut book) {
        Ok(n) => print_book(rt, &book[..n], scheme),
        Err(refusal) => print::refused(rt, refusal.number()),
    }
}

pub fn run(rt: &HostRuntime) -> io::Result<()> {
    for scheme in 1..=3 {
        lines(rt, scheme)?;
    }
    Ok(())
}
