// The text form of reading: two lines that give a table, and the lines that say what reading it finds.
#![tactic(auto)]

mod input;
mod lines;

ghost use Rattle.std.specs.Prelude.{◌≡◌, ◌&&◌, ◌++◌, ◌≤◌, nat_le, length, drop};
ghost use Rattle.buffers.specs.Private.{Wrote};
ghost use Rattle.table_text.specs.Text.{digits_tested, text_of};
ghost use Rattle.table_text.specs.Private.{answered, answered_line};

use reading::{Reading, answers};
use refusals::Refusal;

// A text that is as laid out: the numbers of its first line, P among them where it has five fields, and the digits of
// its second.
#[derive(Drop)]
struct Typed<'a> {
    scheme: u32,
    n: u32,
    f: u32,
    d: u32,
    passed: Option<u32>,
    outcomes: &'a [u8],
}

// The most bytes that a text may have, and the most days.
fn is_small(size: usize, d: u32) -> bool
    ensures { result ≡ nat_le size 1024 && nat_le d 256 }
{
    size <= 1024 && d <= 256
}

// 1 2 3 7 19, and 15 for extra digits.
#[tactic(auto, using(crate::proofs::TextLaws::digit_laws))]
fn test_digits(
    scheme: u32,
    n: u32,
    f: u32,
    d: u32,
    passed: u32,
    count: usize,
) -> Result<(), Refusal>
    ensures { result ≡ digits_tested scheme n f d passed count }
{
    reading::test_passed(scheme, n, f, d, passed)?;
    let values = layouts::values_through(scheme, n, d) as usize;
    if values < count {
        return Err(Refusal::BadText);
    }
    Ok(())
}

// What is printed of a text that is formed, by P. The list has a place for each of the 256 days that D may have, so
// that reading finds no cause 8.
fn answer(
    scheme: u32,
    n: u32,
    f: u32,
    d: u32,
    passed: u32,
    outcomes: &[u8],
    out: &mut [u8],
) -> usize
    requires { (d ≤ 256) × (2048 ≤ length out.old) }
    ensures { Wrote 0 (answered scheme n f d passed outcomes.now) out.old
        result out.new }
{
    if let Err(refusal) = test_digits(scheme, n, f, d, passed, outcomes.len()) {
        return lines::refuse(out, refusal.number());
    }
    let mut list = [0u32; 256];
    let reading = reading::read(scheme, n, f, d, passed, outcomes, &mut list);
    if let Reading::Refused(number) = reading {
        return lines::refuse(out, number);
    }
    let report = answers::numbers_of(d, reading);
    lines::put_report(out, scheme, report, &list[..report.listed as usize])
}

// What is printed of a text that is formed, by its first line. Tests 1 2 3 7 come before the validation is worked out,
// which is P where the line has none.
fn answer_line(t: &Typed, outcomes: &[u8], out: &mut [u8]) -> usize
    requires { (t.now.d ≤ 256) × (2048 ≤ length out.old) }
    ensures { Wrote 0 (answered_line t.now outcomes.now) out.old result out.new }
{
    if let Err(refusal) = layouts::test_layout(t.scheme, t.n, t.f, t.d) {
        return lines::refuse(out, refusal.number());
    }
    let validation = t.d - t.f * t.n;
    let passed = t.passed.unwrap_or(validation);
    answer(t.scheme, t.n, t.f, t.d, passed, outcomes, out)
}

// What is printed of any text.
fn put_text(input: &[u8], out: &mut [u8]) -> usize
    requires { 2048 ≤ length out.old }
    ensures { Wrote 0 (text_of input.now) out.old result out.new }
{
    let Some(t) = input::read_lines(input) else {
        return lines::refuse(out, Refusal::BadText.number());
    };
    if !is_small(input.len(), t.d) {
        return lines::refuse(out, Refusal::BadText.number());
    }
    let mut table = [0u8; 1024];
    input::outcomes(t.outcomes, &mut table);
    answer_line(&t, &table[..t.outcomes.len()], out)
}

// Writes to the front of out what readtable prints for the input, and gives its length.
pub fn text(input: &[u8], out: &mut [u8; 2048]) -> usize
    ensures value { result ≡ length (text_of input.now) }
    ensures out_after { out.new ≡
        text_of input.now ++ drop (length (text_of input.now)) out.old }
{
    put_text(input, out)
}
