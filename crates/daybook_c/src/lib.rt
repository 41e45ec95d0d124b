// The calls for C and other languages, thin over the Rattle calls. Each returns 0, or the refusal's number.
// include/daybook.h says what a caller must keep; the crate daybook_c_c exports them.
#![tactic(auto)]

ghost use Rattle.std.specs.Prelude.{◌≡◌};
ghost use Rattle.refusals.specs.Refusals.{number_of};
ghost use Rattle.layouts.specs.Layouts.{layout_refusal};
ghost use Rattle.service.specs.Contract.{opened, written_so_far};
ghost use Rattle.record_bytes.specs.Bytes.{bytes_of_record, record_of};
ghost use Rattle.sizing.specs.Sizing.{forecasted};
ghost use Rattle.positions.specs.Positions.{located, placed};
ghost use Rattle.sealing.specs.Contract.{sealed_book};
ghost use Rattle.checking.specs.Contract.{checked};
ghost use Rattle.reading.specs.Contract.{readout};
ghost use Rattle.searching.specs.Searching.{searched};
ghost use Rattle.daybook_c.specs.Contract.{added_bytes, closed_bytes, numbers_after, values_after};
ghost use Rattle.daybook_c.specs.Contract.{record_values_after, sizes_after, chain_after, position_after};
ghost use Rattle.ambiguity.specs.Ambiguity.{counted};
ghost use Rattle.daybook_c.specs.Contract.{progress_after, counts_after, version};

use record_bytes::RECORD_BYTES;

pub fn daybook_open(scheme: u32, n: u32, f: u32, state: &mut [u8; RECORD_BYTES]) -> u32
    ensures value { result ≡ number_of (opened scheme n f).answer }
    ensures state_after { state.new ≡ bytes_of_record (opened scheme n f).state }
{
    let opened = service::open(scheme, n, f);
    *state = record_bytes::encode(opened.state);
    refusals::number_of(&opened.answer)
}

pub fn daybook_add(state: &mut [u8; RECORD_BYTES], piece: &[u8], blocks: &mut u32) -> u32
    ensures value { result ≡ (added_bytes state.old piece.now blocks.old).number }
    ensures state_after { state.new ≡
        (added_bytes state.old piece.now blocks.old).state }
    ensures blocks_after { blocks.new ≡
        (added_bytes state.old piece.now blocks.old).blocks }
{
    let mut grown = record_bytes::decode(*state);
    match service::add(&mut grown, piece) {
        Ok(filled) => {
            *state = record_bytes::encode(grown);
            *blocks = filled;
            0
        }
        Err(refusal) => refusal.number(),
    }
}

pub fn daybook_close(
    state: &mut [u8; RECORD_BYTES],
    part: &mut [u8],
    values: &mut u32,
    blocks: &mut u32,
) -> u32
    ensures value { result ≡
        (closed_bytes state.old part.old values.old blocks.old).number }
    ensures state_after { state.new ≡
        (closed_bytes state.old part.old values.old blocks.old).state }
    ensures part_after { part.new ≡
        (closed_bytes state.old part.old values.old blocks.old).part }
    ensures values_after { values.new ≡
        (closed_bytes state.old part.old values.old blocks.old).values }
    ensures blocks_after { blocks.new ≡
        (closed_bytes state.old part.old values.old blocks.old).blocks }
{
    let mut next = record_bytes::decode(*state);
    match service::close(&mut next, part) {
        Ok(closed) => {
            *state = record_bytes::encode(next);
            *values = closed.values;
            *blocks = closed.blocks;
            0
        }
        Err(refusal) => refusal.number(),
    }
}

pub fn daybook_seal(
    scheme: u32,
    n: u32,
    f: u32,
    d: u32,
    ledger: &[u8],
    ends: &[u32],
    book: &mut [u8],
) -> u32
    ensures value { result ≡ number_of
        (sealed_book scheme n f d ledger.now ends.now book.old).answer }
    ensures book_after { book.new ≡
        (sealed_book scheme n f d ledger.now ends.now book.old).book }
{
    let a = sealing::seal(scheme, n, f, d, ledger, ends, book);
    refusals::number_of(&a)
}

pub fn daybook_check(
    scheme: u32,
    n: u32,
    f: u32,
    d: u32,
    ledger: &[u8],
    ends: &[u32],
    book: &[u8],
    work: &mut [u8],
    outcomes: &mut [u8],
) -> u32
    ensures value { result ≡ number_of (checked scheme n f d ledger.now ends.now book.now
        work.old outcomes.old).answer }
    ensures work_after { work.new ≡
        (checked scheme n f d ledger.now ends.now book.now
        work.old outcomes.old).work }
    ensures outcomes_after { outcomes.new ≡
        (checked scheme n f d ledger.now ends.now book.now
        work.old outcomes.old).outcomes }
{
    let a = checking::check(scheme, n, f, d, ledger, ends, book, work, outcomes);
    refusals::number_of(&a)
}

pub fn daybook_read(
    scheme: u32,
    n: u32,
    f: u32,
    d: u32,
    passed: u32,
    outcomes: &[u8],
    list: &mut [u32],
    numbers: &mut [u32; 5],
) -> u32
    ensures value { result ≡ (readout scheme n f d passed outcomes.now list.old).report.refusal }
    ensures list_after { list.new ≡
        (readout scheme n f d passed outcomes.now list.old).list }
    ensures numbers_after { numbers.new ≡
        numbers_after (readout scheme n f d passed outcomes.now list.old).report
        numbers.old }
{
    let a = reading::read(scheme, n, f, d, passed, outcomes, list);
    let x = reading::answers::number_of(d, a);
    if x == 0 {
        let m = reading::answers::numbers_of(d, a);
        *numbers = [m.listed, m.first, m.low, m.high, m.last_good];
    }
    x
}

#[tactic(auto, using(crate::proofs::Answers::values_laws))]
pub fn daybook_values(scheme: u32, n: u32, f: u32, d: u32, values: &mut u32) -> u32
    ensures value { result ≡ layout_refusal scheme n f d }
    ensures values_after { values.new ≡ values_after scheme n f d values.old }
{
    match layouts::test_layout(scheme, n, f, d) {
        Ok(()) => {
            *values = layouts::values_through(scheme, n, d);
            0
        }
        Err(refusal) => refusal.number(),
    }
}

#[tactic(auto, unfolding(crate::specs::Contract::record_values_after))]
pub fn daybook_record_values(state: &[u8; RECORD_BYTES], values: &mut u32) -> u32
    ensures value { result ≡ number_of (written_so_far (record_of state.now)) }
    ensures values_after { values.new ≡ record_values_after state.now values.old }
{
    match service::values_so_far(record_bytes::decode(*state)) {
        Ok(written) => {
            *values = written;
            0
        }
        Err(refusal) => refusal.number(),
    }
}

#[tactic(auto, unfolding(crate::specs::Contract::sizes_after))]
pub fn daybook_forecast(
    scheme: u32,
    n: u32,
    f: u32,
    d: u32,
    lengths: &[u32],
    sizes: &mut [u64; 3],
) -> u32
    ensures value { result ≡ number_of (forecasted scheme n f d lengths.now) }
    ensures sizes_after { sizes.new ≡
        sizes_after (forecasted scheme n f d lengths.now) sizes.old }
{
    match sizing::forecast(scheme, n, f, d, lengths) {
        Ok(s) => {
            *sizes = [u64::from(s.values), u64::from(s.bytes), s.blocks];
            0
        }
        Err(refusal) => refusal.number(),
    }
}

#[tactic(auto, unfolding(crate::specs::Contract::chain_after))]
pub fn daybook_chain_at(
    scheme: u32,
    n: u32,
    f: u32,
    d: u32,
    position: u32,
    chain: &mut [u32; 4],
) -> u32
    ensures value { result ≡ number_of (located scheme n f d position) }
    ensures chain_after { chain.new ≡ chain_after (located scheme n f d position) chain.old }
{
    match positions::chain_at(scheme, n, f, d, position) {
        Ok(c) => {
            *chain = c.numbers();
            0
        }
        Err(refusal) => refusal.number(),
    }
}

#[tactic(auto, unfolding(crate::specs::Contract::position_after))]
pub fn daybook_position_of(
    scheme: u32,
    n: u32,
    f: u32,
    d: u32,
    chain: &[u32; 4],
    position: &mut u32,
) -> u32
    ensures value { result ≡ number_of (placed scheme n f d chain.now) }
    ensures position_after { position.new ≡
        position_after (placed scheme n f d chain.now) position.old }
{
    match positions::position_of_numbers(scheme, n, f, d, *chain) {
        Ok(p) => {
            *position = p;
            0
        }
        Err(refusal) => refusal.number(),
    }
}

#[tactic(auto, unfolding(crate::specs::Contract::progress_after))]
pub fn daybook_search(
    scheme: u32,
    n: u32,
    f: u32,
    d: u32,
    outcomes: &[u8],
    limit: u32,
    list: &mut [u32],
    progress: &mut [u32; 3],
) -> u32
    ensures value { result ≡
        number_of (searched scheme n f d outcomes.now limit list.old).answer }
    ensures list_after { list.new ≡
        (searched scheme n f d outcomes.now limit list.old).list }
    ensures progress_after { progress.new ≡
        progress_after (searched scheme n f d outcomes.now limit list.old).answer
        progress.old }
{
    match searching::search(scheme, n, f, d, outcomes, limit, list) {
        Ok(p) => {
            *progress = [p.looked, p.found, p.undecided];
            0
        }
        Err(refusal) => refusal.number(),
    }
}

#[tactic(auto, unfolding(crate::specs::Contract::counts_after))]
pub fn daybook_tile_counts(n: u32, k: u32, counts: &mut [u32; 2]) -> u32
    ensures value { result ≡ number_of (counted n k) }
    ensures counts_after { counts.new ≡ counts_after (counted n k) counts.old }
{
    match ambiguity::tile_counts(n, k) {
        Ok(c) => {
            *counts = [c.sets, c.listed];
            0
        }
        Err(refusal) => refusal.number(),
    }
}

pub fn daybook_version() -> u32
    ensures { result ≡ version }
{
    900
}
