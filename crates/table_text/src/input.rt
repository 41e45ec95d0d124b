// The two lines: four or five fields, and the outcomes.
ghost use Rattle.std.specs.Prelude.{◌≡◌, false, [], ◌∷◌, ◌++◌, map, ◌≤◌, length, drop, MatchOption};
ghost use Rattle.lists.specs.Lists.{same};
ghost use Rattle.number_text.specs.Numbers.{digit_of, is_field, line_feed};
ghost use Rattle.table_text.specs.Text.{is_formed};
ghost use Rattle.table_text.specs.Private.{from_last, LineEndIs, TypedIs};

use crate::Typed;

// The end of the first line: D, P where there is one, and what follows the line.
#[derive(Drop)]
struct LineEnd<'a> {
    d: u32,
    passed: Option<u32>,
    rest: &'a [u8],
}

// The line from D on.
fn read_line_end(s: &[u8]) -> Option<LineEnd<'_>>
    ensures { MatchOption result (is_field line_feed (from_last s.now) ≡ false) (λ e. LineEndIs s.now e) }
{
    let fourth = number_text::read_field(s, b',');
    let Some(d) = fourth.value else {
        let last = number_text::read_field(s, b'\n');
        return Some(LineEnd {
            d: last.value?,
            passed: None,
            rest: last.rest,
        });
    };
    let last = number_text::read_field(fourth.rest, b'\n');
    Some(LineEnd {
        d,
        passed: Some(last.value?),
        rest: last.rest,
    })
}

// Nothing but a line feed.
#[tactic(auto, using(crate::proofs::InputLaws::end_not))]
fn is_end(s: &[u8]) -> bool
    ensures { result ≡ same s.now (line_feed ∷ []) }
{
    matches!(s, [b'\n'])
}

// The whole text, where it is as laid out.
pub fn read_lines(s: &[u8]) -> Option<Typed<'_>>
    ensures { MatchOption result (is_formed s.now ≡ false) (λ t. TypedIs s.now t) }
{
    let scheme = number_text::read_field(s, b',');
    let n = number_text::read_field(scheme.rest, b',');
    let f = number_text::read_field(n.rest, b',');
    let last = read_line_end(f.rest)?;
    let (outcomes, end) = number_text::split_digits(last.rest);
    if !is_end(end) {
        return None;
    }
    Some(Typed {
        scheme: scheme.value?,
        n: n.value?,
        f: f.value?,
        d: last.d,
        passed: last.passed,
        outcomes,
    })
}

// The numbers of the digits, to the front of the buffer.
pub fn outcomes(ds: &[u8], to: &mut [u8])
    requires { length ds.now ≤ length to.old }
    ensures { to.new ≡
        map digit_of ds.now ++ drop (length ds.now) to.old }
{
    for (i, b) in ds.iter().enumerate() {
        to[i] = number_text::digit(*b);
    }
}
