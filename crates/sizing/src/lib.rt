// The size of a season before it is sealed: values, bytes of the book, SHA-256 blocks. Nothing is hashed.
#![tactic(auto)]

ghost use Rattle.std.specs.Prelude.{◌≡◌, true, ◌≤◌, length, take};
ghost use Rattle.lists.specs.Lists.{every};
ghost use Rattle.refusals.specs.Refusals.{day_limit, book_limit};
ghost use Rattle.layouts.specs.Layouts.{allowed_n};
ghost use Rattle.sizing.specs.Sizing.{day_blocks, short_day, blocks_through, lengths_tested, sizing_tested};
ghost use Rattle.sizing.specs.Sizing.{forecasted};

use refusals::Refusal;

#[derive(Clone, Copy, Debug, PartialEq, Eq)]
pub struct Sizes {
    pub values: u32,
    pub bytes: u32,
    pub blocks: u64,
}

// Whether no length is over the day's limit.
fn short_days(lengths: &[u32]) -> bool
    ensures { result ≡ every short_day lengths.now }
{
    lengths.iter().all(|b| *b <= refusals::DAY_LIMIT)
}

// Tests 16 17 (SPEC 17.6): fewer than d lengths; one of the first d over the day's limit. Lengths past d are not read.
#[tactic(auto, using(crate::proofs::LengthLaws::length_tests))]
fn test_lengths(d: u32, lengths: &[u32]) -> Result<(), Refusal>
    ensures { result ≡ lengths_tested d lengths.now }
{
    let days = d as usize;
    if lengths.len() < days {
        return Err(Refusal::FewLengths);
    }
    if !short_days(&lengths[..days]) {
        return Err(Refusal::LongLength);
    }
    Ok(())
}

// Tests 1 2 3 7 16 17.
#[tactic(auto, using(crate::proofs::LengthLaws::sizing_laws))]
fn test_sizing(scheme: u32, n: u32, f: u32, d: u32, lengths: &[u32]) -> Result<(), Refusal>
    ensures { result ≡ sizing_tested scheme n f d lengths.now }
{
    layouts::test_layout(scheme, n, f, d)?;
    test_lengths(d, lengths)
}

// The blocks of a day of b bytes, without its links.
fn day_blocks(b: u32) -> u32
    requires { b ≤ day_limit }
    ensures { result ≡ day_blocks b }
{
    (b + 9) / 64 + 1
}

// The blocks of the days 1 to d.
fn blocks(scheme: u32, n: u32, d: u32, lengths: &[u32]) -> u64
    requires { (allowed_n n ≡ true) × (d ≤ book_limit) × (d ≤ length lengths.now)
        × (every short_day (take d lengths.now) ≡ true) }
    ensures { result ≡ blocks_through scheme n lengths.now d }
{
    let mut sum = 0;
    for i in 0..d {
        let own = day_blocks(lengths[i as usize]);
        let links = chains::link_count(scheme, n, i + 1);
        sum += u64::from(own + 2 * links);
    }
    sum
}

#[tactic(auto, using(crate::proofs::LengthLaws::forecast_laws))]
pub fn forecast(scheme: u32, n: u32, f: u32, d: u32, lengths: &[u32]) -> Result<Sizes, Refusal>
    ensures { result ≡ forecasted scheme n f d lengths.now }
{
    test_sizing(scheme, n, f, d, lengths)?;
    let values = layouts::values_through(scheme, n, d);
    let blocks = blocks(scheme, n, d, lengths);
    Ok(Sizes {
        values,
        bytes: 32 * values,
        blocks,
    })
}
