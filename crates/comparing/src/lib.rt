// Comparing: the values of a day against those in the book.
#![tactic(auto)]

ghost use Rattle.std.specs.Prelude.{◌≡◌, ◌++◌, ◌*◌, ◌≤◌, length, take, drop};
ghost use Rattle.comparing.specs.Private.{outcome_of, compared};

use chains::Value;
use sha256_words::bytes;

// 1 where the first 32 bytes of the book are those of the value, else 0.
#[tactic(auto, using(crate::proofs::Laws::same_is))]
fn outcome(book: &[u8], v: Value) -> u8
    requires { 32 ≤ length book.now }
    ensures { result ≡ outcome_of v book.now }
{
    let b = bytes(v.words);
    u8::from(book[..32] == b[..])
}

// Compares the values with the front of the book, and writes their outcomes to the front of the buffer.
#[tactic(auto, unfolding(crate::specs::Private::compared))]
pub fn all(book: &[u8], values: &[Value], outcomes: &mut [u8])
    requires { (32 * length values.now ≤ length book.now) × (length values.now ≤ length outcomes.old) }
    ensures { outcomes.new ≡
        compared values.now book.now ++ drop (length values.now) outcomes.old }
{
    for (j, v) in values.iter().enumerate() {
        outcomes[j] = outcome(&book[32 * j..], *v);
    }
}
