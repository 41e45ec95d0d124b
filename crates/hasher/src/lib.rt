// SHA-256 of a message that comes in pieces, and of one that is all at hand. A result is the eight words of the digest.
#![tactic(auto)]

ghost use Rattle.std.specs.Prelude.{◌≡◌, [], ◌∷◌, ◌++◌, ◌+◌, ◌*◌, ◌≤◌, ◌<◌, length, take};
ghost use Rattle.sha256_words.specs.Words.{words};
ghost use Rattle.sha256.specs.Sha256.{wide, hashed};
ghost use Rattle.hasher.specs.Hasher as spec;
ghost use Rattle.hasher.specs.Hasher.{filled};

use sha256::blocks;
use sha256_words::constants::initial;

// What the bytes of a message have come to: the hash value of its whole blocks, and the bytes since the last,
// followed by zeros. How many bytes came is the caller's to know.
#[derive(Drop)]
pub struct Hasher {
    pub words: [u32; 8],
    pub block: [u8; 64],
}

// A block of the bytes kept, those of s, and zeros.
#[tactic(auto, using(crate::proofs::Filling::filled_by))]
fn fill(kept: &[u8], s: &[u8]) -> [u8; 64]
    requires { length kept.now + length s.now ≤ 64 }
    ensures { result ≡ filled (kept.now ++ s.now) }
{
    let mut r = [0u8; 64];
    let at = kept.len();
    r[..at].copy_from_slice(kept);
    r[at..at + s.len()].copy_from_slice(s);
    r
}

// What the bytes of s leave, after the hash value h.
#[tactic(auto, using(crate::proofs::Cases::onward_of, std::proofs::lemmas::Grind::common_steps))]
fn onward(h: [u32; 8], s: &[u8]) -> Hasher
    ensures { result ≡ spec.onward h s.now }
{
    let whole = s.len() / 64 * 64;
    Hasher {
        words: blocks(h, s),
        block: fill(&[], &s[whole..]),
    }
}

// No byte yet.
#[tactic(auto, using(crate::proofs::Cases::empty_of))]
pub fn empty() -> Hasher
    ensures { result ≡ spec.begun [] }
{
    Hasher {
        words: initial(),
        block: [0u8; 64],
    }
}

// The byte first.
#[tactic(auto, using(crate::proofs::Cases::begin_of))]
pub fn begin(first: u8) -> Hasher
    ensures { result ≡ spec.begun (first ∷ []) }
{
    let mut block = [0u8; 64];
    block[0] = first;
    Hasher {
        words: initial(),
        block,
    }
}

// One piece more, after count bytes. A block is compressed in the call that fills it.
#[tactic(auto, using(crate::proofs::Cases::absorb_cases))]
pub fn absorb(st: Hasher, count: u64, s: &[u8]) -> Hasher
    ensures { result ≡ spec.absorbed st count s.now }
{
    let Hasher { words, block } = st;
    let n = (count % 64) as usize;
    if n == 0 {
        return onward(words, s);
    }
    let room = 64 - n;
    if s.len() < room {
        let block = fill(&block[..n], s);
        return Hasher { words, block };
    }
    let full = fill(&block[..n], &s[..room]);
    onward(blocks(words, &full), &s[room..])
}

// A block whose last eight bytes are the bits of count bytes.
#[tactic(auto, using(crate::proofs::Filling::ended_of))]
fn ended(b: [u8; 64], count: u64) -> [u8; 64]
    ensures { result ≡ take 56 b ++ wide (8 * count) }
{
    let mut r = b;
    r[56..].copy_from_slice(&count.wrapping_mul(8).to_be_bytes());
    r
}

// The digest, after count bytes.
#[tactic(auto, using(crate::proofs::Cases::finish_one, crate::proofs::Cases::finish_two))]
pub fn finish(st: Hasher, count: u64) -> [u32; 8]
    ensures { result ≡ spec.finished st count }
{
    let Hasher { words, block } = st;
    let n = (count % 64) as usize;
    let c = fill(&block[..n], &[128u8]);
    if n < 56 {
        return blocks(words, &ended(c, count));
    }
    let z = [0u8; 64];
    blocks(blocks(words, &c), &ended(z, count))
}

// The digest of the byte first and fewer than 55 bytes: one block, with no hasher between.
fn digest_short(first: u8, s: &[u8]) -> [u32; 8]
    requires { length s.now < 55 }
    ensures { result ≡ hashed (first ∷ s.now) }
{
    let mut b = [0u8; 64];
    b[0] = first;
    let end = 1 + s.len();
    b[1..end].copy_from_slice(s);
    b[end] = 128;
    blocks(initial(), &ended(b, s.len() as u64 + 1))
}

// The digest of the byte first and the bytes of s.
#[tactic(auto, using(crate::proofs::Cases::digest_of_lem))]
pub fn digest(first: u8, s: &[u8]) -> [u32; 8]
    ensures { result ≡ hashed (first ∷ s.now) }
{
    if s.len() < 55 {
        return digest_short(first, s);
    }
    let st = absorb(begin(first), 1, s);
    finish(st, s.len() as u64 + 1)
}
