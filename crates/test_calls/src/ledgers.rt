// The calls on a ledger of 24 days: its values are counted, days of 130 bytes are sized, a chain and a position of its
// book are found, it is sealed, checked with day 10 altered, read with P 0, with P 16, and with P 12, which is refused,
// and searched, which is refused too. Then a table of the tree is searched: scheme 3, N 2, D 6, the days 2 and 6
// changed; and the sets of two days of a tile of four are counted, and of four of two, which is refused.
ghost use Rattle.std.specs.Prelude.{◌≤◌, length};

use crate::lines;
use std::io;
use test_samples::{days, lent};

fn values(rt: &HostRuntime) -> io::Result<()> {
    let mut values = 99u32;
    lines::head(
        rt,
        b"values",
        daybook_c::daybook_values(2, 8, 3, 24, &mut values),
    )?;
    lines::numbers(rt, &[values])?;
    lines::end(rt)
}

fn forecast(rt: &HostRuntime) -> io::Result<()> {
    let lengths = [130u32; 30];
    let mut sizes = [96u64; 3];
    lines::head(
        rt,
        b"forecast",
        daybook_c::daybook_forecast(2, 8, 3, 24, &lengths, &mut sizes),
    )?;
    for size in sizes {
        print!(rt; " {size}")?;
    }
    lines::end(rt)
}

fn chain_at(rt: &HostRuntime) -> io::Result<()> {
    let mut chain = [95u32; 4];
    lines::head(
        rt,
        b"chain_at",
        daybook_c::daybook_chain_at(2, 8, 3, 24, 7, &mut chain),
    )?;
    lines::numbers(rt, &chain)?;
    lines::end(rt)
}

fn position_of(rt: &HostRuntime) -> io::Result<()> {
    let chain = [2u32, 3, 17, 23];
    let mut position = 99u32;
    lines::head(
        rt,
        b"position_of",
        daybook_c::daybook_position_of(2, 8, 3, 24, &chain, &mut position),
    )?;
    lines::numbers(rt, &[position])?;
    lines::end(rt)
}

fn seal(rt: &HostRuntime, ledger: &[u8], ends: &[u32], book: &mut [u8]) -> io::Result<()>
    requires { 32 ≤ length book.old }
{
    lines::head(
        rt,
        b"seal",
        daybook_c::daybook_seal(2, 8, 3, 24, ledger, ends, book),
    )?;
    lines::bytes(rt, &book[0..32])?;
    lines::end(rt)
}

fn check(
    rt: &HostRuntime,
    ledger: &[u8],
    ends: &[u32],
    book: &[u8],
    outcomes: &mut [u8],
) -> io::Result<()> {
    let mut work = [170u8; 800];
    let returned = daybook_c::daybook_check(2, 8, 3, 24, ledger, ends, book, &mut work, outcomes);
    lines::head(rt, b"check", returned)?;
    lines::bytes(rt, &work[0..32])?;
    lines::bytes(rt, outcomes)?;
    lines::end(rt)
}

fn read(rt: &HostRuntime, passed: u32, outcomes: &[u8]) -> io::Result<()> {
    let mut list = [99u32; 30];
    let mut numbers = [98u32; 5];
    lines::head(
        rt,
        b"read",
        daybook_c::daybook_read(2, 8, 3, 24, passed, outcomes, &mut list, &mut numbers),
    )?;
    lines::numbers(rt, &numbers)?;
    lines::numbers(rt, &list)?;
    lines::end(rt)
}

fn print_search(
    rt: &HostRuntime,
    returned: u32,
    progress: [u32; 3],
    list: &[u32],
) -> io::Result<()> {
    lines::head(rt, b"search", returned)?;
    lines::numbers(rt, &progress)?;
    lines::numbers(rt, list)?;
    lines::end(rt)
}

fn search(rt: &HostRuntime, outcomes: &[u8]) -> io::Result<()> {
    let mut list = [99u32; 30];
    let mut progress = [94u32; 3];
    let returned = daybook_c::daybook_search(2, 8, 3, 24, outcomes, 7, &mut list, &mut progress);
    print_search(rt, returned, progress, &list)
}

fn search_tree(rt: &HostRuntime) -> io::Result<()> {
    let outcomes = [1u8, 0, 0, 1, 1, 1, 0, 1, 0, 0, 0, 170, 170, 170, 170];
    let mut list = [99u32; 9];
    let mut progress = [94u32; 3];
    let returned = daybook_c::daybook_search(3, 2, 1, 6, &outcomes, 5, &mut list, &mut progress);
    print_search(rt, returned, progress, &list)
}

fn tile_counts(rt: &HostRuntime, n: u32, k: u32) -> io::Result<()> {
    let mut counts = [93u32; 2];
    lines::head(
        rt,
        b"tile_counts",
        daybook_c::daybook_tile_counts(n, k, &mut counts),
    )?;
    lines::numbers(rt, &counts)?;
    lines::end(rt)
}

// The book has room for more than its 15 values, the outcomes for more than 15.
fn seal_check_read(rt: &HostRuntime, ledger: &mut [u8], ends: &[u32]) -> io::Result<()> {
    let mut book = [170u8; 500];
    let mut outcomes = [170u8; 20];
    seal(rt, ledger, ends, &mut book)?;
    lent::flip(ledger, days::start(ends, 10));
    check(rt, ledger, ends, &book, &mut outcomes)?;
    read(rt, 0, &outcomes)?;
    read(rt, 16, &outcomes)?;
    read(rt, 12, &outcomes)?;
    search(rt, &outcomes)
}

pub fn run(rt: &HostRuntime) -> io::Result<()> {
    let mut ledger = [0u8; 1400];
    let mut ends = [0u32; 24];
    days::put_all(&mut ledger, &mut ends);
    values(rt)?;
    forecast(rt)?;
    chain_at(rt)?;
    position_of(rt)?;
    seal_check_read(rt, &mut ledger, &ends)?;
    search_tree(rt)?;
    tile_counts(rt, 4, 2)?;
    tile_counts(rt, 2, 4)
}
