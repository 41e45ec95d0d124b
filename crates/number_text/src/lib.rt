// Numbers as text: digits and fields are read here, decimals are written in the module decimal.
#![tactic(auto)]

pub mod decimal;

ghost use Rattle.std.specs.Prelude.{◌≡◌, ◌≤◌, length, take, take_while, Some, None, if◌then◌else◌};
ghost use Rattle.number_text.specs.Numbers.{is_digit, digit_of, digits, is_number, number_from, after_digits};
ghost use Rattle.number_text.specs.Numbers.{is_field, value_in, after_field};

// A field: its number, where it is as laid out; the number of its first five digits in any case; what follows its mark.
#[derive(Drop)]
pub struct Field<'a> {
    pub value: Option<u32>,
    pub number: u32,
    pub rest: &'a [u8],
}

// What a digit stands for.
pub fn digit(b: u8) -> u8
    ensures { result ≡ digit_of b }
{
    b.saturating_sub(b'0')
}

// How many digits stand at the front.
fn digit_count(s: &[u8]) -> usize
    ensures { result ≡ length (take_while is_digit s.now) }
{
    s.iter().take_while(|b| b.is_ascii_digit()).count()
}

// The digits at the front, and what follows them.
#[tactic(auto, using(crate::proofs::FieldLaws::by_count))]
pub fn split_digits(s: &[u8]) -> (&[u8], &[u8])
    ensures front { result.0.now ≡ digits s.now }
    ensures back { result.1.now ≡ after_digits s.now }
{
    s.split_at(digit_count(s))
}

// 1 to 5 digits, no leading zeros.
#[tactic(auto, unfolding(crate::specs::Numbers::is_number))]
fn is_number(ds: &[u8]) -> bool
    ensures { result ≡ is_number ds.now }
{
    let k = ds.len();
    1 <= k && k <= 5 && (k == 1 || ds[0] != b'0')
}

// The number that at most five digits write.
pub fn number(ds: &[u8]) -> u32
    requires { length ds.now ≤ 5 }
    ensures { result ≡ number_from 0 ds.now }
{
    let mut v = 0u32;
    for b in ds {
        v = 10 * v + u32::from(digit(*b));
    }
    v
}

// The number of the first five digits.
fn first_number(ds: &[u8]) -> u32
    ensures { result ≡ number_from 0 (take 5 ds.now) }
{
    number(&ds[..ds.len().min(5)])
}

// The field at the front, which the mark ends.
#[tactic(auto, using(crate::proofs::FieldLaws::field_laws), unfolding(crate::specs::Numbers::after_field))]
pub fn read_field(s: &[u8], mark: u8) -> Field<'_>
    ensures value { result.value ≡ (if is_field mark s.now then Some (value_in s.now) else None) }
    ensures number { result.number ≡ value_in s.now }
    ensures rest { result.rest.now ≡ after_field s.now }
{
    let (ds, after) = split_digits(s);
    let number = first_number(ds);
    let value = if is_number(ds) && after.starts_with(&[mark]) {
        Some(number)
    } else {
        None
    };
    Field {
        value,
        number,
        rest: after.get(1..).unwrap_or(&[]),
    }
}
