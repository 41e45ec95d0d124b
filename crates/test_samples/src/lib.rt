// What the test programs share: days and ledgers of them, made-up records, calls answered by number, cases from
// standard input, lines of output.
#![tactic(auto)]

pub mod answers;
pub mod calls;
pub mod days;
pub mod input;
pub mod lent;
pub mod print;
pub mod records;

// The lowest 32 bits.
pub fn as_u32(x: usize) -> u32 {
    (x % 4294967296) as u32
}
