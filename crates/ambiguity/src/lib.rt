// How vague one tile is, in whole numbers: over the sets of k of its offsets, how many sets there are and how many days
// reading lists for them (SPEC 21). The lines of the figures are written here too.
#![tactic(auto)]

ghost use Rattle.std.specs.Prelude.{◌≡◌, ◌+◌, ◌^◌, ◌≤◌, length};
ghost use Rattle.buffers.specs.Private.{Wrote};
ghost use Rattle.ambiguity.specs.Ambiguity.{count_tested, sets, listed, counted, line_of, text_in, Printed};
ghost use Rattle.ambiguity.specs.Private.{Countable, Tuples, of_tuples, asked_of, ascending};

use refusals::Refusal;

// How many sets of k offsets there are, and the days listed for all of them.
#[derive(Clone, Copy, Debug, PartialEq, Eq)]
pub struct Counts {
    pub sets: u32,
    pub listed: u32,
}

// Tests 2 21. Scheme 2 and F 1 are allowed.
#[tactic(auto, using(crate::proofs::Calls::count_laws))]
fn test_count(n: u32, k: u32) -> Result<(), Refusal>
    ensures { result ≡ count_tested n k }
{
    layouts::test_setup(2, n, 1)?;
    if 64 < n || k == 0 || 3 < k {
        return Err(Refusal::BadCount);
    }
    Ok(())
}

// A sum over the sets of k numbers, from the sums over single numbers, over pairs and over triples of them.
#[tactic(auto, using(crate::proofs::Calls::tuple_laws))]
fn of_tuples(k: u32, one: u32, two: u32, three: u32) -> u32
    requires { (1 ≤ k) × Tuples one two three }
    ensures { result ≡ of_tuples k one two three }
{
    match k {
        1 => one,
        2 => (two - one) / 2,
        _ => (three + 2 * one - 3 * two) / 6,
    }
}

// How many sets of k offsets a tile of n days has.
fn set_count(n: u32, k: u32) -> u32
    requires { Countable n k }
    ensures { result ≡ sets n k }
{
    of_tuples(k, n, n * n, n * n * n)
}

// The days listed for them. One bit more of the offsets multiplies the sum over single offsets by 3, over pairs by 7,
// over triples by 15: each choice of their bits counts twice, the choice of all 1 once.
fn listed_count(n: u32, k: u32) -> u32
    requires { Countable n k }
    ensures { result ≡ listed n k }
{
    let m = layouts::lg(n);
    of_tuples(k, 3u32.pow(m), 7u32.pow(m), 15u32.pow(m))
}

#[tactic(auto, using(crate::proofs::Calls::counted_laws))]
pub fn tile_counts(n: u32, k: u32) -> Result<Counts, Refusal>
    ensures { result ≡ counted n k }
{
    test_count(n, k)?;
    Ok(Counts {
        sets: set_count(n, k),
        listed: listed_count(n, k),
    })
}

// The line of N and k, at most 44 bytes, from a place on; gives the place after it. (With the rest of the buffer and a
// count each call would slice and add.)
fn put_line(out: &mut [u8], at: usize, n: u32, k: u32) -> usize
    requires { Countable n k × (at + 44 ≤ length out.old) }
    ensures { Wrote at (line_of n k) out.old result out.new }
{
    let numbers = [k, set_count(n, k), listed_count(n, k)];
    let a = number_text::decimal::put_digits(out, at, n, 10);
    let b = number_text::decimal::put_numbers(out, a, &numbers);
    out[b] = b'\n';
    b + 1
}

// The lines of N, for each k.
fn put_tile(out: &mut [u8], at: usize, n: u32) -> usize
    requires { Countable n 1 × (at + 132 ≤ length out.old) }
    ensures { Wrote at (text_in (asked_of n)) out.old result out.new }
{
    let a = put_line(out, at, n, 1);
    let b = put_line(out, a, n, 2);
    put_line(out, b, n, 3)
}

// The lines for N 1, 2, 4 up to 64.
fn put_lines(out: &mut [u8]) -> usize
    requires { 1024 ≤ length out.old }
    ensures { Wrote 0 (text_in (ascending 7)) out.old result out.new }
{
    let mut at = 0usize;
    for i in 0..7 {
        at = put_tile(out, at, layouts::size(i));
    }
    at
}

// Writes the 21 lines `N,k,sets,listed` to the front of out, in an order that is not promised, and gives their length.
pub fn lines(out: &mut [u8; 1024]) -> usize
    ensures { Printed out.old result out.new }
{
    put_lines(out)
}
