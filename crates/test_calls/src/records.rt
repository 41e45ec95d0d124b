// The calls on a record: it is opened, nine days of 130 bytes are added and closed, and its values are counted.
use crate::lines;
use std::io;
use test_samples::days;

// The lowest bytes of the six numbers.
fn print_numbers(rt: &HostRuntime, state: &[u8; 728]) -> io::Result<()> {
    lines::bytes(
        rt,
        &[
            state[0], state[4], state[8], state[12], state[16], state[724],
        ],
    )
}

// The start of a chain.
fn print_start(rt: &HostRuntime, state: &[u8; 728]) -> io::Result<()> {
    lines::bytes(rt, &state[692..724])
}

fn open(rt: &HostRuntime, state: &mut [u8; 728]) -> io::Result<()> {
    lines::head(rt, b"open", daybook_c::daybook_open(2, 8, 3, state))?;
    print_numbers(rt, state)?;
    print_start(rt, state)?;
    lines::end(rt)
}

fn add(rt: &HostRuntime, state: &mut [u8; 728], g: usize) -> io::Result<()> {
    let piece = days::bytes(g);
    let mut blocks = 97u32;
    lines::head(
        rt,
        b"add",
        daybook_c::daybook_add(state, &piece, &mut blocks),
    )?;
    print_numbers(rt, state)?;
    lines::numbers(rt, &[blocks])?;
    lines::end(rt)
}

// The part has more than the five values of a whole tile.
fn close(rt: &HostRuntime, state: &mut [u8; 728]) -> io::Result<()> {
    let mut part = [170u8; 200];
    let mut values = 99u32;
    let mut blocks = 97u32;
    lines::head(
        rt,
        b"close",
        daybook_c::daybook_close(state, &mut part, &mut values, &mut blocks),
    )?;
    lines::numbers(rt, &[values, blocks])?;
    lines::bytes(rt, &part[0..32])?;
    lines::end(rt)
}

fn days(rt: &HostRuntime, state: &mut [u8; 728]) -> io::Result<()> {
    for g in 1..10 {
        add(rt, state, g)?;
        close(rt, state)?;
    }
    Ok(())
}

fn record_values(rt: &HostRuntime, state: &[u8; 728]) -> io::Result<()> {
    let mut values = 99u32;
    lines::head(
        rt,
        b"record_values",
        daybook_c::daybook_record_values(state, &mut values),
    )?;
    lines::numbers(rt, &[values])?;
    lines::end(rt)
}

pub fn run(rt: &HostRuntime) -> io::Result<()> {
    let mut state = [170u8; 728];
    open(rt, &mut state)?;
    days(rt, &mut state)?;
    record_values(rt, &state)
}
