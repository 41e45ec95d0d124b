// Records compared, by their bytes: the open day's hash at 20, the running hashes at 52, the open day's block at 628,
// the start at 692, the season at 724.
ghost use Rattle.std.specs.Prelude.{◌≤◌};

use service::Record;
use test_samples::records;

fn same_part(a: Record, b: Record, from: usize, to: usize) -> bool
    requires { (from ≤ to) × (to ≤ 728) }
{
    let x = record_bytes::encode(a);
    let y = record_bytes::encode(b);
    x[from..to] == y[from..to]
}

pub fn same(a: Record, b: Record) -> bool {
    same_part(a, b, 0, 728)
}

fn same_chains(a: Record, b: Record) -> bool {
    same_part(a, b, 52, 628) && same_start(a, b)
}

fn same_start(a: Record, b: Record) -> bool {
    same_part(a, b, 692, 728)
}

fn same_day(a: Record, b: Record) -> bool {
    same_part(a, b, 20, 52) && same_part(a, b, 628, 692)
}

// Whether it is the record of zeros that a refused open gives.
pub fn zeros(a: Record) -> bool {
    record_bytes::encode(a) == [0u8; 728]
}

// Whether next has len bytes more in its open day than the record that the call is made on, and the chains, the start
// and the season of that.
pub fn grown(handed: Record, next: Record, len: usize) -> bool {
    let state = records::current(handed);
    let added = next.bytes.checked_sub(state.bytes);
    added.is_some_and(|x| x as usize == len) && next.days == state.days && same_chains(next, state)
}

// Whether next has one day more closed than the record that the call is made on and an empty open day, and the start
// and the season of that.
pub fn next_day(handed: Record, next: Record) -> bool {
    let state = records::current(handed);
    next.days.checked_sub(1) == Some(state.days)
        && same_start(next, state)
        && next.bytes == 0
        && same_day(next, records::fresh(state.scheme, state.n, state.f))
}
