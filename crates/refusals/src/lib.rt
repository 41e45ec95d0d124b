// Why a call is refused, and 01's number for each cause. The tests of a call, its limits and what a refusal leaves are
// in specs/.
#![tactic(auto)]

ghost use Rattle.std.specs.Prelude.{◌≡◌};
ghost use Rattle.refusals.specs.Refusals as spec;

// The days that a book holds at most.
pub const BOOK_LIMIT: u32 = 65536;

// The last season of a service; the first is 0.
pub const LAST_SEASON: u32 = 65535;

// The bytes that a day holds at most.
pub const DAY_LIMIT: u32 = 16777216;

// The causes, in the order of their numbers.
#[derive(Clone, Copy, Debug, PartialEq, Eq)]
pub enum Refusal {
    BadScheme,
    BadN,
    BadF,
    LongDay,
    LastSeasonFull,
    BadRecord,
    BadD,
    ShortBuffer,
    FewEnds,
    BadEnd,
    ShortBook,
    FewOutcomes,
    BadOutcome,
    NoSet,
    BadText,
    FewLengths,
    LongLength,
    NotInBook,
    BadPassed,
    NotTree,
    BadCount,
}

impl Refusal {
    // 01's number.
    pub fn number(self) -> u32
        ensures { result ≡ spec.number self }
    {
        match self {
            Refusal::BadScheme => 1,
            Refusal::BadN => 2,
            Refusal::BadF => 3,
            Refusal::LongDay => 4,
            Refusal::LastSeasonFull => 5,
            Refusal::BadRecord => 6,
            Refusal::BadD => 7,
            Refusal::ShortBuffer => 8,
            Refusal::FewEnds => 9,
            Refusal::BadEnd => 10,
            Refusal::ShortBook => 11,
            Refusal::FewOutcomes => 12,
            Refusal::BadOutcome => 13,
            Refusal::NoSet => 14,
            Refusal::BadText => 15,
            Refusal::FewLengths => 16,
            Refusal::LongLength => 17,
            Refusal::NotInBook => 18,
            Refusal::BadPassed => 19,
            Refusal::NotTree => 20,
            Refusal::BadCount => 21,
        }
    }
}

// The number of what a call answers: 0, or the refusal's.
pub fn number_of<T>(answer: &Result<T, Refusal>) -> u32
    ensures { result ≡ spec.number_of answer.now }
{
    match answer {
        Ok(_) => 0,
        Err(refusal) => refusal.number(),
    }
}
