// A ledger of sixteen days is sealed under each layout, then checked unaltered, altered, and against altered books. A
// line is the scheme, the case, the answer's number, the outcomes, and the SHA-256 of the day digests; of the sealing
// it is the scheme, 'sealed', the answer's number and the SHA-256 of the book. reference/check_cases.py writes what
// the lines must be.
ghost use Rattle.std.specs.Prelude.{◌<◌};

use crate::{lines, sixteen};
use std::io;
use test_samples::lent;

// The byte at at is altered.
fn byte_altered(
    rt: &HostRuntime,
    name: &[u8],
    scheme: u32,
    book: &[u8],
    at: usize,
) -> io::Result<()> {
    let mut ledger = [0u8; 1280];
    let mut ends = [0u32; 16];
    sixteen::build(sixteen::sample(), &mut ledger, &mut ends);
    lent::flip(&mut ledger, at);
    sixteen::check(rt, name, scheme, &ledger, &ends, book)
}

// The end of the day at index i is moved.
fn end_moved(
    rt: &HostRuntime,
    name: &[u8],
    scheme: u32,
    book: &[u8],
    i: usize,
    to: u32,
) -> io::Result<()>
    requires { i < 16 }
{
    let mut ledger = [0u8; 1280];
    let mut ends = [0u32; 16];
    sixteen::build(sixteen::sample(), &mut ledger, &mut ends);
    ends[i] = to;
    sixteen::check(rt, name, scheme, &ledger, &ends, book)
}

// The days at indices i and j are a and b.
fn replaced(
    rt: &HostRuntime,
    name: &[u8],
    scheme: u32,
    book: &[u8],
    i: usize,
    a: usize,
    j: usize,
    b: usize,
) -> io::Result<()>
    requires { (i < 16) × (j < 16) }
{
    let mut ledger = [0u8; 1280];
    let mut ends = [0u32; 16];
    let mut sample = sixteen::sample();
    sample[i] = a;
    sample[j] = b;
    sixteen::build(sample, &mut ledger, &mut ends);
    sixteen::check(rt, name, scheme, &ledger, &ends, book)
}

// The book's byte at at is altered.
fn book_altered(
    rt: &HostRuntime,
    name: &[u8],
    scheme: u32,
    book: [u8; 1024],
    at: usize,
) -> io::Result<()> {
    let mut altered = book;
    lent::flip(&mut altered, at);
    byte_altered(rt, name, scheme, &altered, 1280)
}

// Day 1 has the ledger's first byte, day 8 the bytes 355 to 419, day 16 the bytes 1158 and 1159.
fn bytes_altered(rt: &HostRuntime, scheme: u32, book: &[u8]) -> io::Result<()> {
    byte_altered(rt, b"unaltered", scheme, book, 1280)?;
    byte_altered(rt, b"first-day", scheme, book, 0)?;
    byte_altered(rt, b"middle-day", scheme, book, 400)?;
    byte_altered(rt, b"last-day", scheme, book, 1159)?;
    byte_altered(rt, b"after-last-day", scheme, book, 1160)
}

fn ends_moved(rt: &HostRuntime, scheme: u32, book: &[u8]) -> io::Result<()> {
    end_moved(rt, b"day-7-shorter-day-8-longer", scheme, book, 6, 354)?;
    end_moved(rt, b"day-7-longer-day-8-shorter", scheme, book, 6, 356)?;
    end_moved(rt, b"day-7-empty", scheme, book, 6, 291)?;
    end_moved(rt, b"last-day-longer", scheme, book, 15, 1161)?;
    end_moved(rt, b"last-day-empty", scheme, book, 15, 1158)
}

fn days_replaced(rt: &HostRuntime, scheme: u32, book: &[u8]) -> io::Result<()> {
    replaced(rt, b"day-1-emptied", scheme, book, 0, 1000, 0, 1000)?;
    replaced(rt, b"day-9-filled", scheme, book, 8, 9001, 8, 9001)?;
    replaced(rt, b"day-10-shorter", scheme, book, 9, 10117, 9, 10117)?;
    replaced(rt, b"days-2-3-exchanged", scheme, book, 1, 3055, 2, 2054)?;
    replaced(rt, b"days-1-16-exchanged", scheme, book, 0, 16002, 15, 1001)
}

// The first value, at its first and its last byte; the middle value; the last one; a book of zeros.
fn books_altered(rt: &HostRuntime, scheme: u32, book: [u8; 1024]) -> io::Result<()> {
    let k = sixteen::values(scheme);
    book_altered(rt, b"first-byte-of-book", scheme, book, 0)?;
    book_altered(rt, b"byte-32-of-book", scheme, book, 31)?;
    book_altered(rt, b"byte-33-of-book", scheme, book, 32)?;
    book_altered(rt, b"middle-value", scheme, book, 16 * k + 16)?;
    book_altered(rt, b"last-byte-of-book", scheme, book, 32 * k - 1)?;
    book_altered(rt, b"zeros", scheme, [0u8; 1024], 1024)
}

fn checks(rt: &HostRuntime, scheme: u32, book: [u8; 1024]) -> io::Result<()> {
    bytes_altered(rt, scheme, &book)?;
    ends_moved(rt, scheme, &book)?;
    days_replaced(rt, scheme, &book)?;
    books_altered(rt, scheme, book)
}

fn layout(rt: &HostRuntime, scheme: u32) -> io::Result<()> {
    let mut ledger = [0u8; 1280];
    let mut ends = [0u32; 16];
    let mut book = [0u8; 1024];
    sixteen::build(sixteen::sample(), &mut ledger, &mut ends);
    let k = sixteen::values(scheme);
    lines::sealed(rt, sixteen::setup(scheme), &ledger, &ends, &mut book, k)?;
    checks(rt, scheme, book)
}

pub fn run(rt: &HostRuntime) -> io::Result<()> {
    for scheme in 1..=3 {
        layout(rt, scheme)?;
    }
    Ok(())
}
