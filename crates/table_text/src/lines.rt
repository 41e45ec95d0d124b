// The lines NO, REF and DAY. Each function writes from a place on and gives the place after what it wrote.
// (With the rest of the buffer and a count each call would slice and add.)
ghost use Rattle.std.specs.Prelude.{◌∷◌, [], ◌++◌, ◌+◌, ◌*◌, ◌≤◌, length};
ghost use Rattle.buffers.specs.Private.{Wrote};
ghost use Rattle.table_text.specs.Text as spec;
ghost use Rattle.table_text.specs.Text.{no_line, day_lines};
ghost use Rattle.table_text.specs.Private.{numbers_in};

use reading::Numbers;

// A word, numbers, and a line feed.
fn put_line(out: &mut [u8], at: usize, word: &[u8], numbers: &[u32]) -> usize
    requires { at + (length word.now + (11 * length numbers.now + 1)) ≤ length out.old }
    ensures { Wrote at (spec.line word.now numbers.now) out.old
        result out.new }
{
    let a = buffers::put(out, at, word);
    let b = number_text::decimal::put_numbers(out, a, numbers);
    out[b] = b'\n';
    b + 1
}

// A line for each day; 15 bytes are room for any one of them.
fn put_days(out: &mut [u8], at: usize, days: &[u32]) -> usize
    requires { at + (length (day_lines days.now) + 15) ≤ length out.old }
    ensures { Wrote at (day_lines days.now) out.old result out.new }
{
    let mut next = at;
    for day in days {
        next = put_line(out, next, b"DAY", &[*day]);
    }
    next
}

// The line of a refusal.
pub fn refuse(out: &mut [u8], number: u32) -> usize
    requires { 2048 ≤ length out.old }
    ensures { Wrote 0 (no_line number) out.old result out.new }
{
    put_line(out, 0, b"NO", &[number])
}

// The line REF, and a line for each day.
pub fn put_report(out: &mut [u8], scheme: u32, report: Numbers, days: &[u32]) -> usize
    requires { 85 + length (day_lines days.now) ≤ length out.old }
    ensures { Wrote 0 (spec.line (82 ∷ 69 ∷ 70 ∷ []) (numbers_in scheme report) ++ day_lines days.now)
        out.old result out.new }
{
    let numbers = [
        scheme,
        report.listed,
        report.first,
        report.low,
        report.high,
        report.last_good,
    ];
    let at = put_line(out, 0, b"REF", &numbers);
    put_days(out, at, days)
}
