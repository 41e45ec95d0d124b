// Decimals. Each function writes from a place on and gives the place after what it wrote.
// (With the rest of the buffer and a count each call would slice and add.)
ghost use Rattle.std.specs.Prelude.{◌∷◌, ◌+◌, ◌*◌, ◌≤◌, length};
ghost use Rattle.buffers.specs.Private.{Wrote};
ghost use Rattle.number_text.specs.Numbers.{comma, decimal_in, decimal, comma_numbers};

// x in decimal, in at most k digits.
#[tactic(auto, using(crate::proofs::DecimalLaws::digit_put))]
pub fn put_digits(out: &mut [u8], at: usize, x: u32, k: u32) -> usize
    requires { at + k ≤ length out.old }
    ensures { Wrote at (decimal_in k x) out.old result out.new }
{
    if k == 0 {
        return at;
    }
    if x < 10 {
        out[at] = b'0' + (x as u8);
        return at + 1;
    }
    let next = put_digits(out, at, x / 10, k - 1);
    out[next] = b'0' + ((x % 10) as u8);
    next + 1
}

// A comma and a number: at most 11 bytes.
pub fn put_number(out: &mut [u8], at: usize, x: u32) -> usize
    requires { at + 11 ≤ length out.old }
    ensures { Wrote at (comma ∷ decimal x) out.old result out.new }
{
    out[at] = b',';
    put_digits(out, at + 1, x, 10)
}

// A comma and a number, for each.
pub fn put_numbers(out: &mut [u8], at: usize, numbers: &[u32]) -> usize
    requires { at + 11 * length numbers.now ≤ length out.old }
    ensures { Wrote at (comma_numbers numbers.now) out.old result out.new }
{
    let mut next = at;
    for x in numbers {
        next = put_number(out, next, *x);
    }
    next
}
