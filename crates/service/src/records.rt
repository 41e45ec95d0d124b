// A record: fresh, of zeros, its tests 6 and 5, and the turn to the next season.
ghost use Rattle.std.specs.Prelude.{◌≡◌, suc, ◌<◌, Ok};
ghost use Rattle.refusals.specs.Refusals.{last_season};
ghost use Rattle.layouts.specs.Layouts.{setup_tested};
ghost use Rattle.service.specs.Contract as spec;
ghost use Rattle.service.specs.Contract.{allowed_record};
ghost use Rattle.service.specs.Private.{record_tested};

use crate::Record;
use chains::Value;
use hasher::Hasher;
use refusals::Refusal;

// Day 1 of a season: no day closed, no byte in the open day, each chain at the start.
#[tactic(auto, unfolding(crate::specs::Contract::at_start))]
fn at_start(scheme: u32, n: u32, f: u32, start: Value, season: u32) -> Record
    ensures { result ≡ spec.at_start scheme n f start season }
{
    let Hasher { words: hash, block } = hasher::begin(0);
    Record {
        scheme,
        n,
        f,
        days: 0,
        bytes: 0,
        hash,
        block,
        black: start,
        running: [start; 17],
        start,
        season,
    }
}

#[tactic(auto, unfolding(crate::specs::Contract::fresh))]
pub fn fresh(scheme: u32, n: u32, f: u32) -> Record
    requires { setup_tested scheme n f ≡ Ok tt }
    ensures { result ≡ spec.fresh scheme n f }
{
    at_start(scheme, n, f, chains::start(scheme, n), 0)
}

#[tactic(auto, unfolding(crate::specs::Contract::zeros, crate::specs::Contract::no_value))]
pub fn zeros() -> Record
    ensures { result ≡ spec.zeros }
{
    let v = Value { words: [0u32; 8] };
    Record {
        scheme: 0,
        n: 0,
        f: 0,
        days: 0,
        bytes: 0,
        hash: [0u32; 8],
        block: [0u8; 64],
        black: v,
        running: [v; 17],
        start: v,
        season: 0,
    }
}

// Test 6.
#[tactic(auto, using(crate::proofs::RecordLaws::test_6))]
pub fn allowed(state: Record) -> bool
    ensures { result ≡ allowed_record state }
{
    if layouts::test_setup(state.scheme, state.n, state.f).is_err()
        || state.days > refusals::BOOK_LIMIT
        || state.bytes > refusals::DAY_LIMIT
        || state.season > refusals::LAST_SEASON
    {
        return false;
    }
    state.days < refusals::BOOK_LIMIT || state.bytes == 0
}

// Tests 6 5.
#[tactic(auto, using(crate::proofs::RecordLaws::tests_6_5))]
pub fn test(state: Record) -> Result<(), Refusal>
    ensures { result ≡ record_tested state }
{
    if !allowed(state) {
        return Err(Refusal::BadRecord);
    }
    if refusals::BOOK_LIMIT <= state.days && refusals::LAST_SEASON <= state.season {
        return Err(Refusal::LastSeasonFull);
    }
    Ok(())
}

// ---- the turn (SPEC 23.2)

// Whether the season is full, and not the last.
pub fn turns(state: Record) -> bool
    ensures { result ≡ spec.turns state }
{
    refusals::BOOK_LIMIT <= state.days && state.season < refusals::LAST_SEASON
}

// The next season: as an open gives it, with the record's own start.
#[tactic(auto, unfolding(crate::specs::Contract::turned))]
pub fn turned(state: Record) -> Record
    requires { state.season < last_season }
    ensures { result ≡ spec.turned state }
{
    let Record {
        scheme,
        n,
        f,
        start,
        season,
        ..
    } = state;
    at_start(scheme, n, f, start, season + 1)
}

// The day that a close closes.
pub fn open_day(state: Record) -> u32
    requires { record_tested state ≡ Ok tt }
    ensures { result ≡ suc (spec.current state).days }
{
    if turns(state) { 1 } else { state.days + 1 }
}

// The record that a call is made on.
#[tactic(auto, unfolding(crate::specs::Contract::current))]
pub fn current(state: Record) -> Record
    ensures { result ≡ spec.current state }
{
    if turns(state) { turned(state) } else { state }
}
