// The service: open, add to the open day, close the day. A refused call leaves the record as it was. Where a season is
// full and not the last, add and close are made on the next (SPEC 23.2).
#![tactic(auto)]

mod blocks;
mod day;
mod records;

ghost use Rattle.std.specs.Prelude.{◌≡◌, ◌*◌, ◌≤◌, length};
ghost use Rattle.refusals.specs.Refusals.{answered};
ghost use Rattle.service.specs.Contract.{opened, add_tested, added, day_count, close_tested, closing};
ghost use Rattle.service.specs.Contract.{both_of, written_so_far};
ghost use Rattle.service.specs.Private.{Open, ClosedDay};

use chains::Value;
use refusals::Refusal;

// 01's five numbers, the running hashes, of the open day (hash, block) and of the chains, the start of a chain, and the
// season.
#[derive(Clone, Copy)]
pub struct Record {
    pub scheme: u32,
    pub n: u32,
    pub f: u32,
    pub days: u32,
    pub bytes: u32,
    pub hash: [u32; 8],
    pub block: [u8; 64],
    pub black: Value,
    pub running: [Value; 17],
    pub start: Value,
    pub season: u32,
}

// What a close gives: the number of values written, and the SHA-256 blocks that it compressed.
#[derive(Clone, Copy, Debug, PartialEq, Eq)]
pub struct Closed {
    pub values: u32,
    pub blocks: u32,
}

// The answer, and the record. After a refusal it is of zeros, which is asked for, so that no Result of a record serves.
#[derive(Clone, Copy)]
pub struct Opened {
    pub answer: Result<(), Refusal>,
    pub state: Record,
}

// Tests 1 2 3 (SPEC 11.1).
#[tactic(auto, using(crate::proofs::CallLaws::open_laws))]
pub fn open(scheme: u32, n: u32, f: u32) -> Opened
    ensures { result ≡ opened scheme n f }
{
    let answer = layouts::test_setup(scheme, n, f);
    let state = match answer {
        Ok(()) => records::fresh(scheme, n, f),
        Err(_) => records::zeros(),
    };
    Opened { answer, state }
}

// Tests 6 5 4 (SPEC 11.2).
#[tactic(auto, using(crate::proofs::CallLaws::add_laws))]
fn test_add(state: Record, size: usize) -> Result<(), Refusal>
    ensures { result ≡ add_tested state size }
{
    records::test(state)?;
    if size > (refusals::DAY_LIMIT - state.bytes) as usize {
        return Err(Refusal::LongDay);
    }
    Ok(())
}

// The piece at the open day's end. Gives the SHA-256 blocks that it fills.
pub fn add(state: &mut Record, piece: &[u8]) -> Result<u32, Refusal>
    ensures value { result ≡ answered (added state.old piece.now).answer (added state.old piece.now).blocks }
    ensures state_after { state.new ≡ (added state.old piece.now).state }
{
    test_add(*state, piece.len())?;
    let made = records::current(*state);
    *state = day::grow(made, piece);
    Ok(blocks::of_add(made, piece.len()))
}

// Tests 6 5 8 (SPEC 11.3).
#[tactic(auto, using(crate::proofs::CallLaws::close_laws))]
fn test_close(state: Record, size: usize) -> Result<(), Refusal>
    ensures { result ≡ close_tested state size }
{
    records::test(state)?;
    let k = layouts::values_of_day(state.scheme, state.n, records::open_day(state));
    if size < 32 * k as usize {
        return Err(Refusal::ShortBuffer);
    }
    Ok(())
}

// The open day closed. Most days of black and of tiles have no values.
fn close_day(state: &mut Record, part: &mut [u8]) -> Closed
    requires { Open state.old × (32 * day_count state.old ≤ length part.old) }
    ensures { ClosedDay state.old part.old result state.new part.new }
{
    let open = *state;
    let g = open.days + 1;
    let k = layouts::values_of_day(open.scheme, open.n, g);
    let mut running = open.running;
    let black = day::link(open, &mut running);
    if k > 0 {
        let values = chains::day_values(open.scheme, open.n, g, k, black, running);
        day::write(part, &values[..k as usize]);
        let again = chains::restart_slots(open.scheme, open.n, g, open.start, running);
        running = again;
    }
    *state = day::next(open, black, running);
    Closed {
        values: k,
        blocks: blocks::of_close(open),
    }
}

// Writes the values of the day to the front of the part.
pub fn close(state: &mut Record, part: &mut [u8]) -> Result<Closed, Refusal>
    ensures value { result ≡ both_of
        (closing state.old part.old).result.answer (closing state.old part.old).result.blocks }
    ensures state_after { state.new ≡ (closing state.old part.old).result.state }
    ensures part_after { part.new ≡ (closing state.old part.old).part }
{
    test_close(*state, part.len())?;
    *state = records::current(*state);
    Ok(close_day(state, part))
}

// Our own call: the number of values of the days closed. Test 6 (SPEC 15.5).
#[tactic(auto, using(crate::proofs::RecordLaws::so_far))]
pub fn values_so_far(state: Record) -> Result<u32, Refusal>
    ensures { result ≡ written_so_far state }
{
    if !records::allowed(state) {
        return Err(Refusal::BadRecord);
    }
    Ok(layouts::values_through(state.scheme, state.n, state.days))
}
