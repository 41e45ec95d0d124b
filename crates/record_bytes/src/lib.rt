// A service's record as bytes, to be kept on disk and handed to other languages.
#![tactic(auto)]

ghost use Rattle.std.specs.Prelude.{◌≡◌, ◌++◌, ◌+◌, ◌*◌, ◌≤◌, ◌<◌, length, take, drop};
ghost use Rattle.record_bytes.specs.Bytes.{hash_at, running_at, block_at, start_at, numbers_bytes, slots_bytes};
ghost use Rattle.record_bytes.specs.Bytes.{bytes_of_record, number_at, numbers_at, value_at, slots_at, record_of};

use chains::Value;
use service::Record;

// Where the open day's hash begins, after the five numbers.
const HASH_AT: usize = 20;

// Where black begins.
const BLACK_AT: usize = 52;

// Where the running hashes begin.
const RUNNING_AT: usize = 84;

// Where the open day's block begins.
const BLOCK_AT: usize = 628;

// Where the start of a chain begins.
const START_AT: usize = 692;

// Where the season stands.
const SEASON_AT: usize = 724;

// The record's size.
pub const RECORD_BYTES: usize = 728;

// ---- from bytes

#[tactic(auto, unfolding(crate::specs::Bytes::number_at))]
fn number_at(b: &[u8], i: usize) -> u32
    requires { i + 4 ≤ length b.now }
    ensures { result ≡ number_at b.now i }
{
    u32::from_le_bytes([b[i], b[i + 1], b[i + 2], b[i + 3]])
}

#[tactic(auto, using(crate::proofs::Steps::numbers_read_are))]
fn numbers_at<const N: usize>(b: &[u8], i: usize) -> [u32; N]
    requires { i + 4 * N ≤ length b.now }
    ensures { result ≡ numbers_at N b.now i }
{
    let mut r = [0u32; N];
    for (k, number) in r.iter_mut().enumerate() {
        *number = number_at(b, i + 4 * k);
    }
    r
}

#[tactic(auto, unfolding(crate::specs::Bytes::value_at))]
fn value_at(b: &[u8], i: usize) -> Value
    requires { i + 32 ≤ length b.now }
    ensures { result ≡ value_at b.now i }
{
    Value {
        words: numbers_at(b, i),
    }
}

#[tactic(auto, using(crate::proofs::Steps::slots_read_are))]
fn slots_at(b: &[u8]) -> [Value; 17]
    requires { block_at ≤ length b.now }
    ensures { result ≡ slots_at 17 b.now running_at }
{
    let mut r = [Value { words: [0u32; 8] }; 17];
    for (k, slot) in r.iter_mut().enumerate() {
        *slot = value_at(b, RUNNING_AT + 32 * k);
    }
    r
}

fn block_at(b: &[u8]) -> [u8; 64]
    requires { start_at ≤ length b.now }
    ensures { result ≡ take 64 (drop block_at b.now) }
{
    let mut r = [0u8; 64];
    r.copy_from_slice(&b[BLOCK_AT..START_AT]);
    r
}

// The record that the bytes say.
#[tactic(auto, unfolding(crate::specs::Bytes::record_of, crate::specs::Bytes::numbers_at))]
pub fn decode(b: [u8; RECORD_BYTES]) -> Record
    ensures { result ≡ record_of b }
{
    Record {
        scheme: number_at(&b, 0),
        n: number_at(&b, 4),
        f: number_at(&b, 8),
        days: number_at(&b, 12),
        bytes: number_at(&b, 16),
        hash: numbers_at(&b, HASH_AT),
        block: block_at(&b),
        black: value_at(&b, BLACK_AT),
        running: slots_at(&b),
        start: value_at(&b, START_AT),
        season: number_at(&b, SEASON_AT),
    }
}

// ---- to bytes

// Writes the numbers from place i on.
fn put_numbers(b: &mut [u8], i: usize, numbers: &[u32])
    requires { i + 4 * length numbers.now ≤ length b.old }
    ensures { take (i + 4 * length numbers.now) b.new ≡ take i b.old ++ numbers_bytes numbers.now }
{
    for (k, number) in numbers.iter().enumerate() {
        let at = i + 4 * k;
        b[at..at + 4].copy_from_slice(&number.to_le_bytes());
    }
}

fn put_slots(b: &mut [u8], slots: [Value; 17])
    requires { block_at ≤ length b.old }
    ensures { take block_at b.new ≡ take running_at b.old ++ slots_bytes slots }
{
    for (k, slot) in slots.iter().enumerate() {
        put_numbers(b, RUNNING_AT + 32 * k, &slot.words);
    }
}

// The record's bytes.
pub fn encode(state: Record) -> [u8; RECORD_BYTES]
    ensures { result ≡ bytes_of_record state }
{
    let mut b = [0u8; RECORD_BYTES];
    put_numbers(
        &mut b,
        0,
        &[state.scheme, state.n, state.f, state.days, state.bytes],
    );
    put_numbers(&mut b, HASH_AT, &state.hash);
    put_numbers(&mut b, BLACK_AT, &state.black.words);
    put_slots(&mut b, state.running);
    buffers::put(&mut b, BLOCK_AT, &state.block);
    put_numbers(&mut b, START_AT, &state.start.words);
    put_numbers(&mut b, SEASON_AT, &[state.season]);
    b
}
