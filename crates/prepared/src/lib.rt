// SHA-256's compression of several hash values by one block: its schedule is made once, with the constants added.
#![tactic(auto)]

ghost use Rattle.std.specs.Prelude.{◌≡◌, [], ◌+◌, ◌≤◌};
ghost use Rattle.sha256.specs.Sha256.{schedule};
ghost use Rattle.sha256.specs.Private.{rounds_on};
ghost use Rattle.prepared.specs.Private.{Prepared, worked};

use sha256::round;
use sha256_words::constants::table;

// The schedule of the block m. The last two words, a and b, are carried: the next one waits for a.
fn scheduled(m: [u32; 16]) -> [u32; 64]
    ensures { result ≡ schedule m 64 }
{
    let mut w = [0; 64];
    w[..16].copy_from_slice(&m);
    let mut a = m[14];
    let mut b = m[15];
    for i in 16..64 {
        let x = sha256::mixed(a, w[i - 7], w[i - 15], w[i - 16]);
        w[i] = x;
        a = b;
        b = x;
    }
    w
}

// The block m, prepared: each word of its schedule with the round's constant added.
pub fn prepare(m: [u32; 16]) -> [u32; 64]
    ensures { Prepared m result }
{
    let k = table();
    let mut w = scheduled(m);
    for (i, x) in w.iter_mut().enumerate() {
        *x = k[i].wrapping_add(*x);
    }
    w
}

// Sixteen rounds, from round t on, in a straight line, as those of sha256.
#[tactic(auto, unfolding(sha256::specs::Private::rounds_on))]
fn rounds(v: [u32; 8], w: &[u32; 64], t: usize) -> [u32; 8]
    requires { t + 16 ≤ 64 }
    ensures { result ≡ rounds_on v [] w.now t 16 }
{
    let v = round(v, w[t], 0);
    let v = round(v, w[t + 1], 0);
    let v = round(v, w[t + 2], 0);
    let v = round(v, w[t + 3], 0);
    let v = round(v, w[t + 4], 0);
    let v = round(v, w[t + 5], 0);
    let v = round(v, w[t + 6], 0);
    let v = round(v, w[t + 7], 0);
    let v = round(v, w[t + 8], 0);
    let v = round(v, w[t + 9], 0);
    let v = round(v, w[t + 10], 0);
    let v = round(v, w[t + 11], 0);
    let v = round(v, w[t + 12], 0);
    let v = round(v, w[t + 13], 0);
    let v = round(v, w[t + 14], 0);
    round(v, w[t + 15], 0)
}

// The hash value after h, by the prepared block w.
pub fn compress(h: [u32; 8], w: &[u32; 64]) -> [u32; 8]
    ensures { result ≡ worked h w.now }
{
    let mut v = h;
    // next comes first: a call whose result goes straight into an array has no generated proof.
    for turn in 0..4 {
        let next = rounds(v, w, 16 * turn);
        v = next;
    }
    sha256::summed(h, v)
}
