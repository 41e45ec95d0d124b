// Reading: from a table of outcomes to the days that may have been changed.
#![tactic(auto)]

pub mod answers;

ghost use Rattle.std.specs.Prelude.{◌≡◌, ◌++◌, ◌≤◌, length, drop};
ghost use Rattle.evidence.specs.Evidence.{listing};
ghost use Rattle.refusals.specs.Refusals.{tested};
ghost use Rattle.layouts.specs.Layouts.{chains};
ghost use Rattle.acceptance.specs.Private.{Table};
ghost use Rattle.reading.specs.Numbers.{last_good_day};
ghost use Rattle.reading.specs.Contract as answer;
ghost use Rattle.reading.specs.Contract.{report_of, allowed_passed, passed_tested, table_tests, read_tested};
ghost use Rattle.reading.specs.Contract.{found, readout};
ghost use Rattle.reading.specs.Private.{Layout, given_tests, Given, numbers_of};
ghost use Rattle.reading.specs.Private as private;

use refusals::Refusal;

// 01's numbers of a changed table.
#[derive(Clone, Copy, Default)]
pub struct Numbers {
    pub listed: u32,
    pub first: u32,
    pub low: u32,
    pub high: u32,
    pub last_good: u32,
}

// The enum that is asked for: clean; changed, with its numbers; refused, with its number.
#[derive(Clone, Copy)]
pub enum Reading {
    Clean,
    Changed(Numbers),
    Refused(u32),
}

// ---- the tests

// The greatest outcome. No early end, so that the compiler takes many at a time.
fn greatest(t: &[u8]) -> u8
    ensures { result ≡ private.greatest t.now }
{
    t.iter().fold(0, |m, o| m.max(*o))
}

// The least of the outcomes and 1, in the same way.
fn least(t: &[u8]) -> u8
    ensures { result ≡ private.least t.now }
{
    t.iter().fold(1, |m, o| m.min(*o))
}

fn bits(t: &[u8]) -> bool
    ensures { result ≡ answer.bits t.now }
{
    greatest(t) <= 1
}

// Tests 13 14. A table of passes, the usual one, needs no other test.
#[tactic(auto, using(crate::proofs::RefusalLaws::given_laws))]
fn test_given(scheme: u32, n: u32, d: u32, t: &[u8]) -> Result<(), Refusal>
    requires { Table scheme n d t.now }
    ensures { result ≡ tested (given_tests scheme n d t.now) }
{
    if !bits(t) {
        return Err(Refusal::BadOutcome);
    }
    if least(t) == 1 {
        return Ok(());
    }
    if !acceptance::accepts(scheme, n, d, t) {
        return Err(Refusal::NoSet);
    }
    Ok(())
}

// Tests 8 12 13 14, for a layout that is allowed.
#[tactic(auto, using(crate::proofs::RefusalLaws::table_laws))]
pub fn test_table(
    scheme: u32,
    n: u32,
    d: u32,
    outcomes: &[u8],
    places: usize,
) -> Result<(), Refusal>
    requires { Layout scheme n d }
    ensures { result ≡ tested (table_tests scheme n d outcomes.now places) }
{
    if places < d as usize {
        return Err(Refusal::ShortBuffer);
    }
    let values = layouts::values_through(scheme, n, d) as usize;
    if outcomes.len() < values {
        return Err(Refusal::FewOutcomes);
    }
    test_given(scheme, n, d, &outcomes[..values])
}

// P is below d, and n divides it.
fn allowed_passed(n: u32, d: u32, passed: u32) -> bool
    requires { 1 ≤ n }
    ensures { result ≡ allowed_passed n d passed }
{
    passed < d && passed % n == 0
}

// Tests 1 2 3 7 19.
#[tactic(auto, using(crate::proofs::RefusalLaws::passed_laws))]
pub fn test_passed(scheme: u32, n: u32, f: u32, d: u32, passed: u32) -> Result<(), Refusal>
    ensures { result ≡ passed_tested scheme n f d passed }
{
    layouts::test_layout(scheme, n, f, d)?;
    if !allowed_passed(n, d, passed) {
        return Err(Refusal::BadPassed);
    }
    Ok(())
}

// Tests 1 2 3 7 19 8 12 13 14 (SPEC 11.5).
#[tactic(auto, using(crate::proofs::RefusalLaws::read_laws))]
fn test(
    scheme: u32,
    n: u32,
    f: u32,
    d: u32,
    passed: u32,
    outcomes: &[u8],
    places: usize,
) -> Result<(), Refusal>
    ensures { result ≡ read_tested scheme n f d passed outcomes.now places }
{
    test_passed(scheme, n, f, d, passed)?;
    test_table(scheme, n, d, outcomes, places)
}

// ---- the answer

#[tactic(auto, unfolding(crate::specs::Private::numbers_of))]
fn changed(n: u32, d: u32, passed: u32, count: u32, first: u32) -> Numbers
    requires { (1 ≤ n) × (1 ≤ first) }
    ensures { result ≡ numbers_of n d passed count first }
{
    Numbers {
        listed: count,
        first,
        low: passed.max(first - 1),
        high: d,
        last_good: (first - 1) / n * n,
    }
}

// A table that some set gives: its listed days to the front of the list, and the numbers.
fn read_table(scheme: u32, n: u32, d: u32, passed: u32, t: &[u8], list: &mut [u32]) -> Reading
    requires { Given scheme n d t.now (length list.old) }
    ensures result_value { report_of d result ≡
        found d passed (listing (chains scheme n d) d t.now) (last_good_day scheme n d t.now) }
    ensures list_after { list.new ≡ listing (chains scheme n d) d t.now ++
        drop (length (listing (chains scheme n d) d t.now)) list.old }
{
    let k = listing::listed(scheme, n, d, t, list);
    if k == 0 {
        return Reading::Clean;
    }
    Reading::Changed(changed(n, d, passed, k as u32, list[0]))
}

// Reads the outcomes needed, in book order, P being the last day at which a check passed: writes the listed days to the
// front of the list and gives the numbers, or refuses and writes nothing.
pub fn read(
    scheme: u32,
    n: u32,
    f: u32,
    d: u32,
    passed: u32,
    outcomes: &[u8],
    list: &mut [u32],
) -> Reading
    ensures result_value { report_of d result ≡ (readout scheme n f d passed outcomes.now list.old).report }
    ensures list_after { list.new ≡
        (readout scheme n f d passed outcomes.now list.old).list }
{
    if let Err(refusal) = test(scheme, n, f, d, passed, outcomes, list.len()) {
        return Reading::Refused(refusal.number());
    }
    let values = layouts::values_through(scheme, n, d) as usize;
    read_table(scheme, n, d, passed, &outcomes[..values], list)
}
