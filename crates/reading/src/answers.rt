// 01's number and values for each case of the answer.
ghost use Rattle.std.specs.Prelude.{◌≡◌};
ghost use Rattle.reading.specs.Contract.{report_of};
ghost use Rattle.reading.specs.Private.{NumbersOf};

use crate::{Numbers, Reading};

// The refusal's number, 0 if there is none.
#[tactic(auto, unfolding(crate::specs::Contract::report_of))]
pub fn number_of(d: u32, a: Reading) -> u32
    ensures { result ≡ (report_of d a).refusal }
{
    match a {
        Reading::Clean | Reading::Changed(_) => 0,
        Reading::Refused(number) => number,
    }
}

// Listed, first listed, low, high, last good.
#[tactic(auto, unfolding(crate::specs::Contract::report_of))]
pub fn numbers_of(d: u32, a: Reading) -> Numbers
    ensures { NumbersOf (report_of d a) result }
{
    match a {
        Reading::Clean => Numbers {
            last_good: d,
            ..Numbers::default()
        },
        Reading::Changed(m) => m,
        Reading::Refused(_) => Numbers::default(),
    }
}
