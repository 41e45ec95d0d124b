// Made-up records, with no byte hashed of their open day.
ghost use Rattle.std.specs.Prelude.{◌≤◌};

use chains::Value;
use service::Record;
use std::array;

// Word j of the running value k is 1000 * k + j.
fn value(k: u32) -> Value
    requires { k ≤ 18 }
{
    Value {
        words: array::from_fn(|j| 1000 * k + j as u32),
    }
}

// A record of no days and no bytes, its chains at the start.
fn begun(scheme: u32, n: u32, f: u32, start: Value, season: u32) -> Record {
    let day = hasher::begin(0);
    let hash = day.words;
    let block = day.block;
    Record {
        scheme,
        n,
        f,
        days: 0,
        bytes: 0,
        hash,
        block,
        black: start,
        running: [start; 17],
        start,
        season,
    }
}

// A record with any numbers and with values of its own: black 0, slot i the value i + 1, the start the value 18.
pub fn made_up(scheme: u32, n: u32, f: u32, season: u32, days: u32, bytes: u32) -> Record {
    Record {
        days,
        bytes,
        black: value(0),
        running: array::from_fn(|i| value(i as u32 + 1)),
        ..begun(scheme, n, f, value(18), season)
    }
}

// The record that a call is made on: the next season's, each chain at the record's start, where the season is full and
// not the last.
pub fn current(state: Record) -> Record {
    if state.days < 65536 || 65535 <= state.season {
        return state;
    }
    begun(
        state.scheme,
        state.n,
        state.f,
        state.start,
        state.season + 1,
    )
}

// lg of the allowed N, as a byte.
fn lg(n: u32) -> u8 {
    n.trailing_zeros().min(8) as u8
}

// The record of an accepted open.
pub fn fresh(scheme: u32, n: u32, f: u32) -> Record {
    let layout = [(scheme % 256) as u8, lg(n)];
    let start = Value {
        words: hasher::digest(2, &layout),
    };
    begun(scheme, n, f, start, 0)
}
