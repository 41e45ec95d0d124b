// The link of a chain: SHA-256 of the byte 1, a value and a digest, 65 bytes, as two blocks of words. One by itself,
// one with its second block prepared for all links to the digest, or sixteen to the same digest side by side.
#![tactic(auto)]

ghost use Rattle.std.specs.Prelude.{◌≡◌, ◌∷◌, ◌++◌, length};
ghost use Rattle.sha256.specs.Sha256.{hashed};
ghost use Rattle.sha256_words.specs.Words.{initial, bytes_of};
ghost use Rattle.lanes.specs.Private.{Lanes, always};
ghost use Rattle.prepared.specs.Private.{Prepared};
ghost use Rattle.links.specs.Private as form;

use lanes::Rows;

// The word of the last byte of a and the first three bytes of b.
fn across(a: u32, b: u32) -> u32
    ensures { result ≡ form.across a b }
{
    a % 256 * 16777216 + b / 256
}

// The words of the first block of the byte 1 and the bytes of v and of h; and of the second, the padding with them.
// That v has eight words, which its type says, is told to callers that need it of a list.
pub fn front(v: [u32; 8], h: [u32; 8]) -> [u32; 16]
    ensures { (result ≡ form.front v h) × (length v ≡ 8) }
{
    [
        across(1, v[0]),
        across(v[0], v[1]),
        across(v[1], v[2]),
        across(v[2], v[3]),
        across(v[3], v[4]),
        across(v[4], v[5]),
        across(v[5], v[6]),
        across(v[6], v[7]),
        across(v[7], h[0]),
        across(h[0], h[1]),
        across(h[1], h[2]),
        across(h[2], h[3]),
        across(h[3], h[4]),
        across(h[4], h[5]),
        across(h[5], h[6]),
        across(h[6], h[7]),
    ]
}

fn back(h: [u32; 8]) -> [u32; 16]
    ensures { result ≡ form.back h }
{
    let mut m = [0; 16];
    m[0] = across(h[7], 0x80000000);
    m[15] = 520;
    m
}

// The digest of the byte 1, the bytes of v and the bytes of h: two blocks, whose words are those of v and h, a byte on.
pub fn link_words(v: [u32; 8], h: [u32; 8]) -> [u32; 8]
    ensures { result ≡ hashed (1 ∷ (bytes_of v ++ bytes_of h)) }
{
    let m = front(v, h);
    let n = back(h);
    let k = sha256_words::constants::table();
    let g = sha256::compress_with(sha256_words::constants::initial(), m, &k);
    sha256::compress_with(g, n, &k)
}

// The second block of every link to the digest h, prepared.
pub fn tail(h: [u32; 8]) -> [u32; 64]
    ensures { Prepared (form.back h) result }
{
    prepared::prepare(back(h))
}

// The same as link_words, its second block prepared: once for many links, where link_words has no use for that.
pub fn link_by(v: [u32; 8], h: [u32; 8], w: &[u32; 64]) -> [u32; 8]
    requires { Prepared (form.back h) w.now }
    ensures { result ≡ hashed (1 ∷ (bytes_of v ++ bytes_of h)) }
{
    let m = front(v, h);
    let g = sha256::compress(sha256_words::constants::initial(), m);
    prepared::compress(g, w)
}

// The first hash value in every lane.
fn firsts() -> Rows<8>
    ensures { Lanes 8 (always initial) result }
{
    let v = sha256_words::constants::initial();
    let mut s = [[0; 16]; 8];
    for j in 0..16 {
        lanes::put(&mut s, j, v);
    }
    s
}

// The links in lanes to the digest h, whose first blocks are m. Their second blocks are one.
pub fn link_lanes(m: Rows<16>, h: [u32; 8]) -> Rows<8>
    ensures { Lanes 8 (form.link_of m h) result }
{
    let g = lanes::compress(firsts(), m);
    lanes::compress_same(g, back(h))
}
