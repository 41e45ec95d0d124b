// Cases from standard input: a line each, of numbers with ',' between them.
ghost use Rattle.std.specs.Prelude.{◌≤◌};

// The number with one more digit; another byte adds nothing.
fn appended(x: u32, b: u8) -> u32 {
    match b {
        b'0'..=b'9' => x.wrapping_mul(10).wrapping_add(u32::from(b - b'0')),
        _ => x,
    }
}

// The place of the next byte's number, after the byte b in number k.
fn next(k: usize, b: u8) -> usize
    requires { k ≤ 10 }
    ensures { result ≤ 10 }
{
    if b == b',' { (k + 1).min(10) } else { k }
}

// The numbers of a line, eleven at most.
pub fn numbers(line: &[u8]) -> [u32; 11] {
    let mut r = [0u32; 11];
    let mut k = 0usize;
    for &b in line {
        r[k] = appended(r[k], b);
        k = next(k, b);
    }
    r
}

// The line without its line feed.
pub fn without_end(line: &[u8]) -> &[u8] {
    line.strip_suffix(b"\n").unwrap_or(line)
}

// x, or most if that is less.
pub fn at_most(x: u32, most: usize) -> usize
    ensures { result ≤ most }
{
    most.min(x as usize)
}
