// Every refusal of sealing and of checking, and every pair of causes at once. Standard input has a line for each:
// scheme, N, F, D; the ends lent, an index and the end put there; the lengths of ledger, book, work and outcomes. The
// line is written again with, for each call, its name, its answer's number, 0 for done, and the place from which on
// each buffer that it may write is as it was. reference/check_refusals.py writes both.
use std::io;
use std::io::Read;
use test_samples::calls::Setup;
use test_samples::input::at_most;
use test_samples::{as_u32, input, lent, print};

// The ends 4, 8, 12 and so on, but for one.
fn ends(c: [u32; 11]) -> [u32; 20] {
    let mut e = [
        4u32, 8, 12, 16, 20, 24, 28, 32, 36, 40, 44, 48, 52, 56, 60, 64, 68, 72, 76, 80,
    ];
    let i = at_most(c[5], 19);
    e[i] = c[6];
    e
}

fn setup(c: [u32; 11]) -> Setup {
    Setup::new(c[0], c[1], c[2], c[3])
}

// Writes the place from which on the buffer is as it was.
fn print_kept(rt: &HostRuntime, s: &[u8]) -> io::Result<()> {
    print::byte(rt, b' ')?;
    print::number(rt, as_u32(lent::kept(s)))
}

fn print_seal(
    rt: &HostRuntime,
    s: Setup,
    ledger: &[u8],
    ends: &[u32],
    book: &mut [u8],
) -> io::Result<()> {
    print::number(rt, s.seal(ledger, ends, book))?;
    print_kept(rt, book)
}

fn seal(rt: &HostRuntime, c: [u32; 11], ledger: &[u8], ends: &[u32]) -> io::Result<()> {
    let mut book = [170u8; 1100];
    let room = at_most(c[8], 1100);
    print::bytes(rt, b": seal ")?;
    print_seal(rt, setup(c), ledger, ends, &mut book[..room])
}

fn print_check(
    rt: &HostRuntime,
    s: Setup,
    ledger: &[u8],
    ends: &[u32],
    book: &[u8],
    work: &mut [u8],
    outcomes: &mut [u8],
) -> io::Result<()> {
    print::number(rt, s.check(ledger, ends, book, work, outcomes))?;
    print_kept(rt, work)?;
    print_kept(rt, outcomes)
}

fn check(rt: &HostRuntime, c: [u32; 11], ledger: &[u8], ends: &[u32]) -> io::Result<()> {
    let book = [170u8; 1100];
    let mut work = [170u8; 600];
    let mut outcomes = [170u8; 40];
    let room = at_most(c[8], 1100);
    let length = at_most(c[9], 600);
    let places = at_most(c[10], 40);
    print::bytes(rt, b" check ")?;
    print_check(
        rt,
        setup(c),
        ledger,
        ends,
        &book[..room],
        &mut work[..length],
        &mut outcomes[..places],
    )
}

fn seal_and_check(rt: &HostRuntime, c: [u32; 11], ledger: &[u8], ends: &[u32]) -> io::Result<()> {
    seal(rt, c, ledger, ends)?;
    check(rt, c, ledger, ends)?;
    print::byte(rt, b'\n')
}

fn case(rt: &HostRuntime, line: &[u8]) -> io::Result<()> {
    print::bytes(rt, line)?;
    let c = input::numbers(line);
    let ledger = [98u8; 80];
    let ends = ends(c);
    let count = at_most(c[4], 20);
    let size = at_most(c[7], 80);
    seal_and_check(rt, c, &ledger[..size], &ends[..count])
}

fn cases(rt: &HostRuntime, s: &[u8]) -> io::Result<()> {
    for line in s.split_inclusive(|b| *b == b'\n') {
        case(rt, input::without_end(line))?;
    }
    Ok(())
}

pub fn run(rt: &HostRuntime) -> io::Result<()> {
    let mut s = Vec::new(rt.alloc());
    rt.reader().read_to_end(&mut s)?;
    cases(rt, &s)
}
