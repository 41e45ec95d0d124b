// SHA-256's words (FIPS 180-4): operations, functions, constants, words from bytes and bytes from words.
#![tactic(auto)]

pub mod constants;

ghost use Rattle.std.specs.Prelude.{◌≡◌, ◌+◌, ◌<◌, ◌≤◌, length};
ghost use Rattle.sha256_words.specs.Words as spec;

#[tactic(auto, unfolding(crate::specs::Words::add32))]
pub fn add32(a: u32, b: u32) -> u32
    ensures { result ≡ spec.add32 a b }
{
    a.wrapping_add(b)
}

// The standard's (x & y) ^ (!x & z), with one operation less.
#[tactic(auto, using(crate::proofs::Choose::ch_by))]
pub fn ch(x: u32, y: u32, z: u32) -> u32
    ensures { result ≡ spec.ch x y z }
{
    z ^ (x & (y ^ z))
}

// The standard's (x & y) ^ (x & z) ^ (y & z), with one operation less; its x ^ y is the next round's y ^ z.
#[tactic(auto, using(crate::proofs::Choose::maj_by))]
pub fn maj(x: u32, y: u32, z: u32) -> u32
    ensures { result ≡ spec.maj x y z }
{
    y ^ ((x ^ y) & (y ^ z))
}

// The four functions as the standard writes them (4.1.2): a common one of three constants would be no shorter.
#[tactic(auto, unfolding(crate::specs::Words::bsig0))]
pub fn bsig0(x: u32) -> u32
    ensures { result ≡ spec.bsig0 x }
{
    x.rotate_right(2) ^ x.rotate_right(13) ^ x.rotate_right(22)
}

#[tactic(auto, unfolding(crate::specs::Words::bsig1))]
pub fn bsig1(x: u32) -> u32
    ensures { result ≡ spec.bsig1 x }
{
    x.rotate_right(6) ^ x.rotate_right(11) ^ x.rotate_right(25)
}

#[tactic(auto, unfolding(crate::specs::Words::ssig0))]
pub fn ssig0(x: u32) -> u32
    ensures { result ≡ spec.ssig0 x }
{
    x.rotate_right(7) ^ x.rotate_right(18) ^ (x >> 3)
}

#[tactic(auto, unfolding(crate::specs::Words::ssig1))]
pub fn ssig1(x: u32) -> u32
    ensures { result ≡ spec.ssig1 x }
{
    x.rotate_right(17) ^ x.rotate_right(19) ^ (x >> 10)
}

// The word of the four bytes from i on, the first byte highest.
#[tactic(auto, unfolding(crate::specs::Words::word_at))]
pub fn word_at(s: &[u8], i: usize) -> u32
    requires { i + 4 ≤ length s.now }
    ensures { result ≡ spec.word_at s.now i }
{
    u32::from_be_bytes([s[i], s[i + 1], s[i + 2], s[i + 3]])
}

// The sixteen words of a block.
#[tactic(auto, using(crate::proofs::Laws::words_of))]
pub fn words(b: &[u8]) -> [u32; 16]
    requires { length b.now ≡ 64 }
    ensures { result ≡ spec.words b.now }
{
    let mut r = [0u32; 16];
    for (i, word) in r.iter_mut().enumerate() {
        *word = word_at(b, 4 * i);
    }
    r
}

// The bytes of a hash value, the highest of a word first.
#[tactic(auto, unfolding(crate::specs::Words::bytes_of))]
pub fn bytes(h: [u32; 8]) -> [u8; 32]
    ensures { result ≡ spec.bytes_of h }
{
    let mut r = [0u8; 32];
    for (i, word) in h.iter().enumerate() {
        r[4 * i..4 * i + 4].copy_from_slice(&word.to_be_bytes());
    }
    r
}
