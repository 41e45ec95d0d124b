// SHA-256's compression of sixteen hash values side by side, by a block each or by one for all. The words stand in rows
// of sixteen, a word of each lane, so that the compiler makes vector code of a loop over the lanes.
#![tactic(auto)]

ghost use Rattle.std.specs.Prelude.{◌≡◌, ℕ, ◌+◌, ◌≤◌, ◌<◌, length, get_or, take};
ghost use Rattle.sha256.specs.Sha256.{later, scheduled, schedule};
ghost use Rattle.lanes.specs.Lanes as spec;
ghost use Rattle.lanes.specs.Lanes.{lane};
ghost use Rattle.lanes.specs.Private as form;

// R rows: lane j has word j of each.
pub type Rows<const R: usize> = [[u32; 16]; R];

// The hash value of lane j.
#[tactic(auto, using(crate::proofs::LaneLaws::lane_read))]
pub fn state(s: &Rows<8>, j: usize) -> [u32; 8]
    requires { j < 16 }
    ensures { result ≡ lane s.now j }
{
    let mut v = [0; 8];
    for i in 0..8 {
        v[i] = s[i][j];
    }
    v
}

// Lane j made v.
#[tactic(auto, using(crate::proofs::LaneLaws::puts_none, crate::proofs::LaneLaws::puts_next))]
pub fn put<const R: usize>(rows: &mut Rows<R>, j: usize, v: [u32; R])
    requires { j < 16 }
    ensures { rows.new ≡ form.puts rows.old j v.entry }
{
    for i in 0..R {
        rows[i][j] = v[i];
    }
}

// Four rounds in lane j, from round t on, with the schedules w and the constants k. It is called in one place, so that
// the compiler puts it there: a call in the loop over the lanes would keep that loop from becoming vector code. More
// rounds in a turn are no faster.
#[tactic(auto, using(crate::proofs::Steps::on_none, crate::proofs::Steps::on_next))]
fn four_rounds(v: [u32; 8], w: &Rows<64>, k: &[u32; 64], t: usize, j: usize) -> [u32; 8]
    requires { (t + 4 ≤ 64) × (j < 16) }
    ensures { result ≡ form.on_lane w.now k.now t 4 v j }
{
    let mut r = v;
    // u comes first: a call whose result goes straight into an array has no generated proof.
    for i in 0..4 {
        let u = sha256::round(r, k[t + i], w[t + i][j]);
        r = u;
    }
    r
}

// Four rounds in every lane.
fn rounds(s: &mut Rows<8>, w: &Rows<64>, k: &[u32; 64], t: usize)
    requires { (t + 4 ≤ 64) × form.Wide s.old }
    ensures lanes { form.Lanes 8 (form.four_on w.now k.now t s.old) s.new }
    ensures wide { form.Wide s.new }
{
    for j in 0..16 {
        let v = state(s, j);
        let u = four_rounds(v, w, k, t, j);
        put(s, j, u);
    }
}

// Every lane added to that of h.
fn summed(s: &mut Rows<8>, h: &Rows<8>)
    requires { form.Wide s.old }
    ensures lanes { form.Lanes 8 (form.sum_of h.now s.old) s.new }
    ensures wide { form.Wide s.new }
{
    for j in 0..16 {
        let g = state(h, j);
        let v = state(s, j);
        let u = sha256::summed(g, v);
        put(s, j, u);
    }
}

// Row i of the schedules, from the rows before.
fn next_row(w: &Rows<64>, i: usize) -> [u32; 16]
    requires { (16 ≤ i) × (i < 64) }
    ensures { (j : ℕ) → j < 16 → get_or result j 0 ≡ later (lane w.now j) i }
{
    let mut row = [0; 16];
    for j in 0..16 {
        row[j] = sha256::mixed(w[i - 2][j], w[i - 7][j], w[i - 15][j], w[i - 16][j]);
    }
    row
}

// The schedules of the blocks that are their first sixteen rows, in lanes.
fn schedule(w: &mut Rows<64>)
    ensures { form.Lanes 64 (form.schedule_of (take 16 w.old)) w.new }
{
    for i in 16..64 {
        w[i] = next_row(w, i);
    }
}

// Word i of the schedule of the block m, from the rows before.
#[tactic(auto, using(crate::proofs::Steps::scheduled_first, crate::proofs::Steps::word_next))]
fn next_word(w: &Rows<64>, m: [u32; 16], i: usize) -> u32
    requires { i < 64 }
    ensures { result ≡ scheduled m (lane w.now 0) i }
{
    if i < 16 {
        return m[i];
    }
    sha256::mixed(w[i - 2][0], w[i - 7][0], w[i - 15][0], w[i - 16][0])
}

// The schedule of the block m in every lane.
fn schedule_same(w: &mut Rows<64>, m: [u32; 16])
    ensures { form.Lanes 64 (form.always (schedule m 64)) w.new }
{
    for i in 0..64 {
        let x = next_word(w, m, i);
        w[i] = [x; 16];
    }
}

// The hash value of each lane after that of s, by the lane's schedule.
fn worked(s: Rows<8>, w: &Rows<64>) -> Rows<8>
    ensures lanes { form.Lanes 8 (form.worked_by s w.now) result }
    ensures wide { form.Wide result }
{
    let k = sha256_words::constants::table();
    let mut v = s;
    for i in 0..16 {
        rounds(&mut v, w, &k, 4 * i);
    }
    summed(&mut v, &s);
    v
}

// The hash value of each lane after that of s, by the block of the lane. The schedules are made in place: a function
// that returned them would have them copied.
pub fn compress(s: Rows<8>, m: Rows<16>) -> Rows<8>
    ensures { result ≡ spec.compressed s m }
{
    let mut w = [[0; 16]; 64];
    w[..16].copy_from_slice(&m);
    schedule(&mut w);
    worked(s, &w)
}

// The hash value of each lane after that of s, by the same block for all.
#[tactic(auto, using(crate::proofs::Steps::compressed_same_lem))]
pub fn compress_same(s: Rows<8>, m: [u32; 16]) -> Rows<8>
    ensures { result ≡ spec.compressed_same s m }
{
    let mut w = [[0; 16]; 64];
    schedule_same(&mut w, m);
    worked(s, &w)
}
