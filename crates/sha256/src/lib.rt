// SHA-256 (FIPS 180-4): schedule, rounds, compression of a block and of the blocks of a list.
#![tactic(auto)]

ghost use Rattle.std.specs.Prelude.{◌≡◌, ◌+◌, ◌≤◌, ◌<◌};
ghost use Rattle.sha256_words.specs.Words.{k_table};
ghost use Rattle.sha256.specs.Sha256 as spec;
ghost use Rattle.sha256.specs.Private as form;

use sha256_words::constants::table;
use sha256_words::{bsig0, bsig1, ch, maj, ssig0, ssig1, words};

// The terms T1 and T2 of a round.
#[tactic(auto, unfolding(crate::specs::Sha256::t1, sha256_words::specs::Words::add32))]
fn t1(e: u32, f: u32, g: u32, h: u32, k: u32, w: u32) -> u32
    ensures { result ≡ spec.t1 e f g h k w }
{
    h.wrapping_add(bsig1(e))
        .wrapping_add(ch(e, f, g))
        .wrapping_add(k)
        .wrapping_add(w)
}

#[tactic(auto, unfolding(crate::specs::Sha256::t2, sha256_words::specs::Words::add32))]
fn t2(a: u32, b: u32, c: u32) -> u32
    ensures { result ≡ spec.t2 a b c }
{
    bsig0(a).wrapping_add(maj(a, b, c))
}

// The next word of the schedule.
#[tactic(auto, unfolding(crate::specs::Private::mixed, sha256_words::specs::Words::add32))]
pub fn mixed(a: u32, b: u32, c: u32, d: u32) -> u32
    ensures { result ≡ form.mixed a b c d }
{
    ssig1(a)
        .wrapping_add(b)
        .wrapping_add(ssig0(c))
        .wrapping_add(d)
}

// The window of sixteen words as a ring: word i made the word sixteen on.
#[tactic(auto, unfolding(crate::specs::Private::slid))]
fn slide(w: &mut [u32; 16], i: usize)
    requires { i < 16 }
    ensures { w.new ≡ form.slid w.old i }
{
    w[i] = mixed(w[(i + 14) % 16], w[(i + 9) % 16], w[(i + 1) % 16], w[i]);
}

// The window, sixteen words on, in a straight line: a loop takes a twelfth more instructions for a block.
#[tactic(auto, unfolding(crate::specs::Private::slides))]
fn slides(w: &mut [u32; 16])
    ensures { w.new ≡ form.slides 16 w.old }
{
    slide(w, 0);
    slide(w, 1);
    slide(w, 2);
    slide(w, 3);
    slide(w, 4);
    slide(w, 5);
    slide(w, 6);
    slide(w, 7);
    slide(w, 8);
    slide(w, 9);
    slide(w, 10);
    slide(w, 11);
    slide(w, 12);
    slide(w, 13);
    slide(w, 14);
    slide(w, 15);
}

// One round, with the constant k and the word w.
#[tactic(auto, unfolding(crate::specs::Sha256::round, crate::specs::Sha256::turned, sha256_words::specs::Words::add32))]
pub fn round(v: [u32; 8], k: u32, w: u32) -> [u32; 8]
    ensures { result ≡ spec.round v k w }
{
    let [a, b, c, d, e, f, g, h] = v;
    let x = t1(e, f, g, h, k, w);
    let y = t2(a, b, c);
    [x.wrapping_add(y), a, b, c, d.wrapping_add(x), e, f, g]
}

// The working variables v added to the hash value h.
#[tactic(auto, using(crate::proofs::Loops::summed_of), unfolding(sha256_words::specs::Words::add32))]
pub fn summed(h: [u32; 8], v: [u32; 8]) -> [u32; 8]
    ensures { result ≡ spec.summed h v }
{
    let mut r = h;
    for (i, word) in r.iter_mut().enumerate() {
        *word = word.wrapping_add(v[i]);
    }
    r
}

// Sixteen rounds, from round t on, in a straight line: a loop takes a sixth more instructions for a block.
#[tactic(auto, unfolding(crate::specs::Private::rounds_on))]
fn rounds(v: [u32; 8], w: &[u32; 16], k: &[u32; 64], t: usize) -> [u32; 8]
    requires { t + 16 ≤ 64 }
    ensures { result ≡ form.rounds_on v w.now k.now t 16 }
{
    let v = round(v, k[t], w[0]);
    let v = round(v, k[t + 1], w[1]);
    let v = round(v, k[t + 2], w[2]);
    let v = round(v, k[t + 3], w[3]);
    let v = round(v, k[t + 4], w[4]);
    let v = round(v, k[t + 5], w[5]);
    let v = round(v, k[t + 6], w[6]);
    let v = round(v, k[t + 7], w[7]);
    let v = round(v, k[t + 8], w[8]);
    let v = round(v, k[t + 9], w[9]);
    let v = round(v, k[t + 10], w[10]);
    let v = round(v, k[t + 11], w[11]);
    let v = round(v, k[t + 12], w[12]);
    let v = round(v, k[t + 13], w[13]);
    let v = round(v, k[t + 14], w[14]);
    round(v, k[t + 15], w[15])
}

// The hash value after h, by the block whose words are m. The table of constants, k, is lent, so that it is made once
// for many blocks. `rounds` and `slides` are called in one place each, so that the compiler puts them there.
pub fn compress_with(h: [u32; 8], mut m: [u32; 16], k: &[u32; 64]) -> [u32; 8]
    requires { k.now ≡ k_table }
    ensures { result ≡ spec.compress h m }
{
    let mut v = h;
    for turn in 0..4 {
        let next = rounds(v, &m, k, 16 * turn);
        v = next;
        if turn < 3 {
            slides(&mut m);
        }
    }
    summed(h, v)
}

// The same, with a table of its own.
pub fn compress(h: [u32; 8], m: [u32; 16]) -> [u32; 8]
    ensures { result ≡ spec.compress h m }
{
    compress_with(h, m, &table())
}

// The hash value after h, by the whole blocks of s, one after the other.
#[tactic(auto, using(crate::proofs::Laws::blocks_cons, crate::proofs::Laws::blocks_short))]
pub fn blocks(h: [u32; 8], s: &[u8]) -> [u32; 8]
    ensures { result ≡ spec.blocks h s.now }
{
    let k = table();
    let mut v = h;
    for block in s.chunks_exact(64) {
        let next = compress_with(v, words(block), &k);
        v = next;
    }
    v
}
