// Checking: the ledger is rehashed day by day, as at sealing, and each value is compared with the book's.
#![tactic(auto)]

mod running;

ghost use Rattle.std.specs.Prelude.{◌≡◌, ◌++◌, ◌*◌, length, drop};
ghost use Rattle.layouts.specs.Layouts.{chains};
ghost use Rattle.checking.specs.Contract.{check_tested, digests_of, outcomes_of, checked};
ghost use Rattle.checking.specs.Private.{Ready, fresh};

use refusals::Refusal;
use running::{Black, Running, Slots};

// The scheme of black alone.
const BLACK: u32 = 1;

// Tests 1 2 3 7 9 10 11 8.
fn test_check(
    scheme: u32,
    n: u32,
    f: u32,
    d: u32,
    ends: &[u32],
    size: usize,
    book: usize,
    work: usize,
    places: usize,
) -> Result<(), Refusal>
    ensures { result ≡ check_tested scheme n f d ends.now size book work places }
{
    ledger::test_ledger(scheme, n, f, d, ends, size)?;
    let k = layouts::values_through(scheme, n, d) as usize;
    if book < 32 * k {
        return Err(Refusal::ShortBook);
    }
    if work < 32 * d as usize || places < k {
        return Err(Refusal::ShortBuffer);
    }
    Ok(())
}

// Every day: its digest to the work buffer, the outcomes of its values to the outcome buffer.
fn check_days<R: Running + Drop>(
    mut running: R,
    d: u32,
    ledger: &[u8],
    ends: &[u32],
    book: &[u8],
    work: &mut [u8],
    outcomes: &mut [u8],
)
    requires ready { Ready (R.state running).scheme (R.state running).n d ends.now
        (length ledger.now) (length book.now) (length work.old) (length outcomes.old) }
    requires first_day { R.state running ≡ fresh (R.state running).scheme (R.state running).n }
    ensures work_after { work.new ≡
        digests_of ledger.now ends.now d ++ drop (32 * d) work.old }
    ensures outcomes_after { outcomes.new ≡
        outcomes_of (R.state running).scheme (R.state running).n d ledger.now ends.now book.now ++
        drop (length (chains (R.state running).scheme (R.state running).n d)) outcomes.old }
{
    let mut at = 0;
    for i in 0..d as usize {
        let day = &ledger[ledger::start_of(ends, i)..ledger::end_of(ends, i)];
        let h = hasher::digest(0, day);
        buffers::put(work, 32 * i, &sha256_words::bytes(h));
        let from = 32 * at;
        at += running.close(i as u32 + 1, h, &book[from..], &mut outcomes[at..]) as usize;
    }
}

// Writes the digests of the ledger's days and the outcomes of the book's values to the front of their buffers, or
// refuses and writes nothing.
pub fn check(
    scheme: u32,
    n: u32,
    f: u32,
    d: u32,
    ledger: &[u8],
    ends: &[u32],
    book: &[u8],
    work: &mut [u8],
    outcomes: &mut [u8],
) -> Result<(), Refusal>
    ensures value { result ≡ (checked scheme n f d
        ledger.now ends.now book.now work.old
        outcomes.old).answer }
    ensures work_after { work.new ≡ (checked scheme n f d
        ledger.now ends.now book.now work.old
        outcomes.old).work }
    ensures outcomes_after { outcomes.new ≡ (checked scheme n f d
        ledger.now ends.now book.now work.old
        outcomes.old).outcomes }
{
    test_check(
        scheme,
        n,
        f,
        d,
        ends,
        ledger.len(),
        book.len(),
        work.len(),
        outcomes.len(),
    )?;
    if scheme == BLACK {
        check_days(Black::new(n), d, ledger, ends, book, work, outcomes);
    } else {
        check_days(Slots::new(scheme, n), d, ledger, ends, book, work, outcomes);
    }
    Ok(())
}
