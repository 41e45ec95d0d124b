// Every refusal of open, add and close, and every pair of causes at once in each call. Standard input has a line for
// each call: its name and the numbers handed to it, which are scheme, N, F; for add and close also a record's season,
// days and bytes, and the length of the piece or the part. The line is written again with the answer's number, 0 for
// done; 'changed' stands before that number where the record or the part that comes back is not the one due.
// reference/service_refusals.py writes both.
use crate::compare;
use refusals::Refusal;
use service::{Closed, Record};
use std::io;
use std::io::Read;
use test_samples::{answers, input, lent, print, records};

fn print_answer(rt: &HostRuntime, number: u32, due: bool) -> io::Result<()> {
    print::bytes(rt, b": ")?;
    if !due {
        print::bytes(rt, b"changed ")?;
    }
    print::number_line(rt, number)
}

fn open(rt: &HostRuntime, c: [u32; 11]) -> io::Result<()> {
    let opened = service::open(c[0], c[1], c[2]);
    let due = match opened.answer {
        Ok(()) => compare::same(opened.state, records::fresh(c[0], c[1], c[2])),
        Err(_) => compare::zeros(opened.state),
    };
    print_answer(rt, refusals::number_of(&opened.answer), due)
}

fn add_piece(rt: &HostRuntime, state: Record, piece: &[u8]) -> io::Result<()> {
    let mut next = state;
    let added = service::add(&mut next, piece);
    let due = match added {
        Ok(_) => compare::grown(state, next, piece.len()),
        Err(_) => compare::same(next, state),
    };
    print_answer(rt, refusals::number_of(&added), due)
}

// Whether what comes back of a close is due: the record and the part as they were, or the next day's record and the
// rest of the part.
fn due(answer: Result<Closed, Refusal>, state: Record, next: Record, part: &[u8]) -> bool {
    let kept = lent::kept(part);
    match answer {
        Ok(closed) => {
            kept <= answers::past(0, closed.values, part.len()) && compare::next_day(state, next)
        }
        Err(_) => kept == 0 && compare::same(next, state),
    }
}

fn close_part(rt: &HostRuntime, state: Record, part: &mut [u8]) -> io::Result<()> {
    let mut next = state;
    let closed = service::close(&mut next, part);
    print_answer(
        rt,
        refusals::number_of(&closed),
        due(closed, state, next, part),
    )
}

fn record(c: [u32; 11]) -> Record {
    records::made_up(c[0], c[1], c[2], c[3], c[4], c[5])
}

fn add(rt: &HostRuntime, c: [u32; 11]) -> io::Result<()> {
    let piece = [97u8; 4];
    let n = input::at_most(c[6], 4);
    add_piece(rt, record(c), &piece[..n])
}

fn close(rt: &HostRuntime, c: [u32; 11]) -> io::Result<()> {
    let mut part = [170u8; 576];
    let n = input::at_most(c[6], 576);
    close_part(rt, record(c), &mut part[..n])
}

fn case(rt: &HostRuntime, line: &[u8]) -> io::Result<()> {
    if line.is_empty() {
        return Ok(());
    }
    print::bytes(rt, line)?;
    let c = input::numbers(line);
    match line[0] {
        b'o' => open(rt, c),
        b'a' => add(rt, c),
        _ => close(rt, c),
    }
}

fn cases(rt: &HostRuntime, s: &[u8]) -> io::Result<()> {
    for line in s.split_inclusive(|b| *b == b'\n') {
        case(rt, input::without_end(line))?;
    }
    Ok(())
}

pub fn run(rt: &HostRuntime) -> io::Result<()> {
    let mut s = Vec::new(rt.alloc());
    rt.reader().read_to_end(&mut s)?;
    cases(rt, &s)
}
