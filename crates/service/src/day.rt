// The open day: a piece more, its digest, its values, the day after it.
ghost use Rattle.std.specs.Prelude.{◌≡◌, ◌+◌, ◌*◌, ◌≤◌, length, take};
ghost use Rattle.refusals.specs.Refusals.{day_limit};
ghost use Rattle.buffers.specs.Private.{Wrote};
ghost use Rattle.chains.specs.Step.{value_bytes};
ghost use Rattle.service.specs.Contract.{open_day, grown, digest_of, next_day};
ghost use Rattle.service.specs.Private.{Open, Linked, After};

use crate::Record;
use chains::Value;
use hasher::Hasher;

// What the bytes of the open day have come to.
fn so_far(state: Record) -> Hasher
    ensures { result ≡ open_day state }
{
    let Record {
        hash: words,
        block,
        ..
    } = state;
    Hasher { words, block }
}

// The record with the piece in its open day.
#[tactic(auto, unfolding(crate::specs::Contract::grown))]
pub fn grow(state: Record, piece: &[u8]) -> Record
    requires { state.bytes + length piece.now ≤ day_limit }
    ensures { result ≡ grown state piece.now }
{
    let count = u64::from(state.bytes) + 1;
    let Hasher { words: hash, block } = hasher::absorb(so_far(state), count, piece);
    Record {
        bytes: state.bytes + piece.len() as u32,
        hash,
        block,
        ..state
    }
}

pub fn digest(state: Record) -> [u32; 8]
    requires { state.bytes ≤ day_limit }
    ensures { result ≡ digest_of state }
{
    hasher::finish(so_far(state), u64::from(state.bytes) + 1)
}

// Links the open day to the slots, where they stand, and gives black linked. A pair of both would copy the slots twice
// more, as `chains::step` does.
#[tactic(auto, using(crate::proofs::DayLaws::day_links))]
pub fn link(state: Record, slots: &mut [Value; 17]) -> Value
    requires { Open state × (slots.old ≡ state.running) }
    ensures { Linked state result slots.new }
{
    let h = digest(state);
    match state.scheme {
        2 => {
            let t = links::tail(h);
            let tiles = chains::link_tiles(state.n, state.days + 1, *slots, h, &t);
            *slots = tiles;
            chains::link_by(state.black, h, &t)
        }
        3 => {
            let levels = chains::link_levels(*slots, h);
            *slots = levels;
            chains::link_value(state.black, h)
        }
        _ => chains::link_value(state.black, h),
    }
}

// Writes the values to the front of the part.
pub fn write(part: &mut [u8], values: &[Value])
    requires { 32 * length values.now ≤ length part.old }
    ensures { Wrote 0 (value_bytes values.now) part.old (32 * length values.now) part.new }
{
    for (i, v) in values.iter().enumerate() {
        buffers::put(part, 32 * i, &sha256_words::bytes(v.words));
    }
}

// The record with the day closed and the next one open, from its chains after the day.
pub fn next(state: Record, black: Value, running: [Value; 17]) -> Record
    requires { Open state × After state black running }
    ensures { result ≡ next_day state }
{
    let Hasher { words: hash, block } = hasher::begin(0);
    Record {
        days: state.days + 1,
        bytes: 0,
        hash,
        block,
        black,
        running,
        ..state
    }
}
