// Seal, alter, check and read, under each layout: the figures of the source paper by real hashes, and a thousand days
// with one change and with three. A line has the form of readtable's reference line, the next the listed days.
// reference/round_trip.py writes what the lines must be.
use reading::Reading;
use std::io;
use test_samples::calls::Setup;
use test_samples::{days, lent, print};

// Alters the first byte of each of the days.
fn alter(ledger: &mut [u8], ends: &[u32], changed: &[u32]) {
    for &g in changed {
        lent::flip(ledger, days::start(ends, g));
    }
}

fn print_reference(rt: &HostRuntime, numbers: [u32; 6]) -> io::Result<()> {
    print::bytes(rt, b"REF,")?;
    print::numbers(rt, &numbers, b',')?;
    print::byte(rt, b'\n')
}

// The first days of a list, at most as many as it has.
fn print_first(rt: &HostRuntime, list: &[u32], count: u32) -> io::Result<()> {
    if let Some(first) = list.get(..count as usize) {
        print::numbers(rt, first, b' ')?;
        print::bytes(rt, b" \n")?;
    }
    Ok(())
}

fn print_answer(
    rt: &HostRuntime,
    scheme: u32,
    d: u32,
    answer: Reading,
    list: &[u32],
) -> io::Result<()> {
    match answer {
        Reading::Clean => print_reference(rt, [scheme, 0, 0, 0, 0, d]),
        Reading::Changed(m) => {
            print_reference(rt, [scheme, m.listed, m.first, m.low, m.high, m.last_good])?;
            print_first(rt, list, m.listed)
        }
        Reading::Refused(number) => print::refused(rt, number),
    }
}

fn read(rt: &HostRuntime, s: Setup, passed: u32, outcomes: &[u8]) -> io::Result<()> {
    let mut list = [0u32; 1000];
    let answer = reading::read(s.scheme, s.n, s.f, s.d, passed, outcomes, &mut list);
    print_answer(rt, s.scheme, s.d, answer, &list)
}

fn check(
    rt: &HostRuntime,
    s: Setup,
    passed: u32,
    ledger: &[u8],
    ends: &[u32],
    book: &[u8],
) -> io::Result<()> {
    let mut outcomes = [9u8; 2112];
    print::number(rt, s.check_days(ledger, ends, book, &mut outcomes))?;
    print::byte(rt, b' ')?;
    read(rt, s, passed, &outcomes)
}

// Seals, alters the days, checks and reads, with the validation before as P.
fn seal_and_check(
    rt: &HostRuntime,
    s: Setup,
    passed: u32,
    changed: &[u32],
    ledger: &mut [u8],
    ends: &[u32],
) -> io::Result<()> {
    let mut book = [0u8; 67584];
    print::number(rt, s.seal(ledger, ends, &mut book))?;
    alter(ledger, ends, changed);
    check(rt, s, passed, ledger, ends, &book)
}

fn trip(rt: &HostRuntime, s: Setup, passed: u32, changed: &[u32]) -> io::Result<()> {
    let mut ledger = [0u8; 66000];
    let mut ends = [0u32; 1000];
    days::put_all(&mut ledger, &mut ends);
    seal_and_check(rt, s, passed, changed, &mut ledger, &ends)
}

// A thousand days: none altered, one, and three.
fn thousand(rt: &HostRuntime, scheme: u32, f: u32, passed: u32) -> io::Result<()> {
    let s = Setup::new(scheme, 8, f, 1000);
    trip(rt, s, passed, &[])?;
    trip(rt, s, passed, &[500])?;
    trip(rt, s, passed, &[3, 777, 1000])
}

pub fn run(rt: &HostRuntime) -> io::Result<()> {
    trip(rt, Setup::new(2, 16, 2, 64), 32, &[19, 20, 27])?;
    trip(rt, Setup::new(3, 2, 1, 16), 14, &[4, 7, 10])?;
    trip(rt, Setup::new(3, 2, 1, 14), 12, &[4, 7, 10])?;
    trip(rt, Setup::new(1, 2, 3, 24), 18, &[16])?;
    thousand(rt, 1, 25, 800)?;
    thousand(rt, 2, 25, 800)?;
    thousand(rt, 3, 1, 992)
}
