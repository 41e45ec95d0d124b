// Sealing a whole ledger in one call: open, then add and close for each of its days. Each close is lent the unwritten
// rest of the book.
#![tactic(auto)]

ghost use Rattle.std.specs.Prelude.{◌≡◌, length, Ok};
ghost use Rattle.refusals.specs.Refusals.{front_written};
ghost use Rattle.ledger.specs.Ledger.{days_of};
ghost use Rattle.chains.specs.Book.{book_of};
ghost use Rattle.sealing.specs.Contract.{seal_tested, sealed_book};

use refusals::Refusal;

// Tests 1 2 3 7 9 10 8 (SPEC 11.7).
#[tactic(auto, using(crate::proofs::SealLaws::seal_laws))]
fn test_seal(
    scheme: u32,
    n: u32,
    f: u32,
    d: u32,
    ends: &[u32],
    size: usize,
    room: usize,
) -> Result<(), Refusal>
    ensures { result ≡ seal_tested scheme n f d ends.now size room }
{
    ledger::test_ledger(scheme, n, f, d, ends, size)?;
    let k = layouts::values_through(scheme, n, d);
    if room < 32 * k as usize {
        return Err(Refusal::ShortBuffer);
    }
    Ok(())
}

// Every day, for a call whose tests pass, so that no call here is refused: its bytes in one piece, its values to the
// front of the rest of the book.
fn seal_days(scheme: u32, n: u32, f: u32, d: u32, ledger: &[u8], ends: &[u32], book: &mut [u8])
    requires { seal_tested scheme n f d ends.now (length ledger.now) (length book.old) ≡ Ok tt }
    ensures { book.new ≡
        front_written 0 (book_of scheme n (days_of ledger.now ends.now d)) book.old }
{
    let mut state = service::open(scheme, n, f).state;
    let mut at = 0;
    for i in 0..d as usize {
        let day = &ledger[ledger::start_of(ends, i)..ledger::end_of(ends, i)];
        service::add(&mut state, day).unwrap();
        let closed = service::close(&mut state, &mut book[at..]).unwrap();
        at += 32 * closed.values as usize;
    }
}

pub fn seal(
    scheme: u32,
    n: u32,
    f: u32,
    d: u32,
    ledger: &[u8],
    ends: &[u32],
    book: &mut [u8],
) -> Result<(), Refusal>
    ensures value { result ≡
        (sealed_book scheme n f d ledger.now ends.now book.old).answer }
    ensures book_after { book.new ≡
        (sealed_book scheme n f d ledger.now ends.now book.old).book }
{
    test_seal(scheme, n, f, d, ends, ledger.len(), book.len())?;
    seal_days(scheme, n, f, d, ledger, ends, book);
    Ok(())
}
