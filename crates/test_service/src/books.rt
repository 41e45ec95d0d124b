// Books by open, add and close.
ghost use Rattle.std.specs.Prelude.{ℕ, ◌≤◌, ◌<◌, length, IfOk};

use refusals::Refusal;
use service::Record;
use test_samples::{answers, days};

// A thousand days, or sixteen whose lengths meet the block bounds.
#[derive(Clone, Copy)]
pub enum Ledger {
    Thousand,
    Short,
}

impl Ledger {
    fn days(self) -> usize
        ensures { result ≤ 1000 }
    {
        match self {
            Ledger::Thousand => 1000,
            Ledger::Short => 16,
        }
    }

    // The bytes of day g.
    fn size(self, g: usize) -> usize
        ensures { result ≤ 130 }
    {
        match self {
            Ledger::Thousand => days::size(g),
            Ledger::Short => short_size(g),
        }
    }
}

fn short_size(g: usize) -> usize
    ensures { result ≤ 130 }
{
    match g {
        2 => 54,
        3 => 55,
        4 => 56,
        5 => 62,
        6 => 63,
        7 => 64,
        8 => 65,
        9 => 118,
        10 => 119,
        11 => 120,
        12 => 126,
        13 => 127,
        14 => 128,
        15 => 1,
        16 => 2,
        _ => 0,
    }
}

// Adds the piece, and an empty one where gap says so.
fn add(state: &mut Record, piece: &[u8], gap: bool) -> Result<(), Refusal> {
    service::add(state, piece)?;
    if gap {
        service::add(state, b"")?;
    }
    Ok(())
}

// Adds the day in pieces of size bytes, then the rest.
fn add_day(state: &mut Record, day: &[u8], size: usize, gap: bool) -> Result<(), Refusal>
    requires { 0 < size }
{
    let pieces = day.chunks_exact(size);
    let rest = pieces.remainder();
    for piece in pieces {
        add(state, piece, gap)?;
    }
    add(state, rest, gap)
}

// Seals the days, each in pieces of piece bytes, with an empty piece after each where gap says so. A piece longer
// than every day leaves the days whole. Lends each close the unwritten rest of the book, and gives the end of what is
// written.
pub fn seal(
    scheme: u32,
    n: u32,
    f: u32,
    ledger: Ledger,
    piece: usize,
    gap: bool,
    book: &mut [u8],
) -> Result<usize, Refusal>
    requires { 0 < piece }
    ensures { IfOk result (λ (at : ℕ). at ≤ length book.new) }
{
    let opened = service::open(scheme, n, f);
    opened.answer?;
    let mut state = opened.state;
    let mut at = 0;
    for g in 1..=ledger.days() {
        let day = days::bytes(g);
        add_day(&mut state, &day[..ledger.size(g)], piece, gap)?;
        let closed = service::close(&mut state, &mut book[at..])?;
        at = answers::past(at, closed.values, book.len());
    }
    Ok(at)
}
