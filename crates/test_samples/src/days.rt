// Days with bytes by a rule, and ledgers of a thousand of them.
ghost use Rattle.std.specs.Prelude.{◌≤◌, ◌<◌, length};

use crate::as_u32;

// Byte i of day g is (31 * g + 7 * i + 5) % 256.
fn byte(g: usize, i: usize) -> u8 {
    ((31 * (g % 256) + 7 * (i % 256) + 5) % 256) as u8
}

// Fills the part with the first bytes of day g.
fn fill(g: usize, part: &mut [u8]) {
    for (i, b) in part.iter_mut().enumerate() {
        *b = byte(g, i);
    }
}

// The first 130 bytes of day g.
pub fn bytes(g: usize) -> [u8; 130] {
    let mut day = [0u8; 130];
    fill(g, &mut day);
    day
}

// Day g of a thousand has 7 * g % 131 bytes.
pub fn size(g: usize) -> usize
    ensures { result ≤ 130 }
{
    7 * (g % 131) % 131
}

// Writes day g, of size bytes, at at, and gives its end; a day for which there is no room is empty.
pub fn put(g: usize, size: usize, at: usize, ledger: &mut [u8]) -> usize
    requires { at ≤ length ledger.old }
    ensures { result ≤ length ledger.new }
{
    if ledger.len() - at < size {
        return at;
    }
    let e = at + size;
    fill(g, &mut ledger[at..e]);
    e
}

// Writes the days end to end, as many as there are ends, and their ends.
pub fn put_all(ledger: &mut [u8], ends: &mut [u32]) {
    let mut at = 0;
    for (i, end) in ends.iter_mut().enumerate() {
        let g = i % 65536 + 1;
        at = put(g, size(g), at, ledger);
        *end = as_u32(at);
    }
}

// Where day g starts.
pub fn start(ends: &[u32], g: u32) -> usize
    ensures { result < 4294967296 }
{
    let g = g as usize;
    if 2 <= g && g <= ends.len() {
        ends[g - 2] as usize
    } else {
        0
    }
}
