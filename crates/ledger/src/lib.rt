// The days of a ledger by 32-bit ends: refusals 9 and 10, starts and ends.
#![tactic(auto)]

ghost use Rattle.std.specs.Prelude.{◌≡◌, ◌<◌, ◌≤◌, length};
ghost use Rattle.ledger.specs.Ledger.{start_of, end_of, good_end, ends_tested, ledger_tested};

use refusals::Refusal;

// Where the day of index i starts.
pub fn start_of(ends: &[u32], i: usize) -> usize
    requires { i ≤ length ends.now }
    ensures { result ≡ start_of ends.now i }
{
    if i == 0 {
        return 0;
    }
    ends[i - 1] as usize
}

// Where the day of index i ends.
pub fn end_of(ends: &[u32], i: usize) -> usize
    requires { i < length ends.now }
    ensures { result ≡ end_of ends.now i }
{
    ends[i] as usize
}

fn good_end(start: usize, end: usize, size: usize) -> bool
    ensures { result ≡ good_end start end size }
{
    start <= end && end <= size && end - start <= refusals::DAY_LIMIT as usize
}

// Tests 9 10: fewer than d ends; one of the first d that is not good. Ends past d are not read.
#[tactic(auto, using(crate::proofs::EndLaws::end_tests))]
pub fn test_ends(d: u32, ends: &[u32], size: usize) -> Result<(), Refusal>
    ensures { result ≡ ends_tested d ends.now size }
{
    let days = d as usize;
    if ends.len() < days {
        return Err(Refusal::FewEnds);
    }
    for i in 0..days {
        if !good_end(start_of(ends, i), end_of(ends, i), size) {
            return Err(Refusal::BadEnd);
        }
    }
    Ok(())
}

// Tests 1 2 3 7 9 10.
#[tactic(auto, using(crate::proofs::LedgerLaws::ledger_laws))]
pub fn test_ledger(
    scheme: u32,
    n: u32,
    f: u32,
    d: u32,
    ends: &[u32],
    size: usize,
) -> Result<(), Refusal>
    ensures { result ≡ ledger_tested scheme n f d ends.now size }
{
    layouts::test_layout(scheme, n, f, d)?;
    test_ends(d, ends, size)
}
