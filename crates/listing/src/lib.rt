// The listed days of an accepted table. Each function writes days to the list from a place on and gives the place
// behind the last of them.
// (With the rest of the list and a count each call would slice and add: b + walk(.., &mut list[b..]).)
#![tactic(auto)]

ghost use Rattle.std.specs.Prelude.{◌≡◌, suc, ◌+◌, ◌-◌, ◌*◌, ◌/◌, ◌^◌, ◌<◌, ◌≤◌, true, map, length, take, drop};
ghost use Rattle.lists.specs.Lists.{up_from, keep};
ghost use Rattle.evidence.specs.Evidence.{days};
ghost use Rattle.layouts.specs.Layouts.{lg, tile, tree, last_days};
ghost use Rattle.layouts.specs.Private.{position};
ghost use Rattle.acceptance.specs.Private as rule;
ghost use Rattle.acceptance.specs.Private.{Table, Interval, Chain, levels_rule, tile_bit, one, number, is_listed};
ghost use Rattle.listing.specs.Private.{FirstFailed, Tile, bit_of, tile_days, later, tree_days, top_days};
ghost use Rattle.buffers.specs.Private.{Wrote};

// The days from first to before end.
fn run(first: u32, end: u32, list: &mut [u32], at: usize) -> usize
    requires { (first ≤ end) × (at + (end - first) ≤ length list.old) }
    ensures { Wrote at (up_from first (end - first)) list.old result list.new }
{
    for day in first..end {
        list[at + (day - first) as usize] = day;
    }
    at + (end - first) as usize
}

// How many intervals come before the first whose black fails, under scheme 1.
fn passing_blacks(n: u32, d: u32, t: &[u8]) -> u32
    requires { Table 1 n d t.now }
    ensures { FirstFailed n d t.now result }
{
    let m = d / n;
    for k in 0..m {
        if !acceptance::values::black_passes(1, n, (k + 1) * n, t) {
            return k;
        }
    }
    m
}

// Scheme 1: no black passes after one that fails, so all days from there on.
fn black_days(n: u32, d: u32, t: &[u8], list: &mut [u32]) -> usize
    requires { Table 1 n d t.now × (d ≤ length list.old) × (rule.rules 1 n d t.now ≡ true) }
    ensures { Wrote 0 (keep (is_listed 1 n t.now) (days d))
        list.old result list.new }
{
    let k = passing_blacks(n, d, t);
    run(k * n + 1, d + 1, list, 0)
}

// The passing chains of the tile that ends at g, whose values stand from place p on, as a number: its bit of weight
// n / 2^i is 1 where c(i) passes.
fn passing(n: u32, g: u32, p: u32, t: &[u8]) -> u32
    requires { Interval 2 n g t.now × (p ≡ position 2 n (tile 0 g)) }
    ensures { result ≡ number (tile_bit n t.now g) (lg n) }
{
    let mut m = 0;
    for i in 1..=layouts::lg(n) {
        let b = acceptance::values::mark(t, p + i);
        m = 2 * m + u32::from(b);
    }
    m
}

// What stands from place at to before end once more, behind it, each number w greater.
fn again(w: u32, at: usize, end: usize, list: &mut [u32]) -> usize
    requires { (at ≤ end) × (end + (end - at) ≤ length list.old) }
    ensures { Wrote end (map (later w) (take (end - at) (drop at list.old)))
        list.old result list.new }
{
    let count = end - at;
    for i in at..end {
        list[i + count] = list[i].wrapping_add(w);
    }
    end + count
}

// Of the 2^level days from a day on, those whose number from there has bits 1 where m has. The first is m on; for each
// bit of m that is 0 what is written stands once more, its weight on.
fn tile_walk(level: u32, day: u32, m: u32, list: &mut [u32], at: usize) -> usize
    requires { Tile level day m × (at + 2 ^ level ≤ length list.old) }
    ensures { Wrote at (tile_days (bit_of m) level day) list.old result list.new }
{
    list[at] = day + m;
    let mut end = at + 1;
    for l in 0..level {
        if (m >> l) % 2 == 0 {
            end = again(layouts::size(l), at, end, list);
        }
    }
    end
}

// The interval that ends at g, under scheme 2.
fn tile_days(n: u32, g: u32, t: &[u8], list: &mut [u32], at: usize) -> usize
    requires { Interval 2 n g t.now × (at + n ≤ length list.old) }
    ensures { Wrote at (keep (is_listed 2 n t.now) (last_days n g))
        list.old result list.new }
{
    let p = layouts::tile_at(n, 0, g);
    if acceptance::values::mark(t, p) {
        return at;
    }
    let m = passing(n, g, p, t);
    tile_walk(layouts::lg(n), g - n + 1, m, list, at)
}

// The intervals in turn.
fn tiles_walk(n: u32, d: u32, t: &[u8], list: &mut [u32]) -> usize
    requires { Table 2 n d t.now × (d ≤ length list.old) }
    ensures { Wrote 0 (keep (is_listed 2 n t.now) (days d))
        list.old result list.new }
{
    let mut at = 0;
    for k in 1..=d / n {
        at = tile_days(n, k * n, t, list, at);
    }
    at
}

// A day whose own chain, at place p, fails.
fn day(n: u32, g: u32, p: u32, t: &[u8], list: &mut [u32], at: usize) -> usize
    requires { Chain n 0 g t.now × (p ≡ position 3 n (tree 0 g)) × (at < length list.old) }
    ensures { Wrote at (tree_days n t.now 0 g) list.old result list.new }
{
    if acceptance::values::mark(t, p) {
        return at;
    }
    list[at] = g;
    at + 1
}

// The tree's chain of a level that ends at g, at place p: nothing if it passes; its day; else its left half, then its
// right, which stands one place before it.
fn walk(n: u32, level: u32, g: u32, p: u32, t: &[u8], list: &mut [u32], at: usize) -> usize
    requires { Chain n level g t.now × (p ≡ position 3 n (tree level g)) × (at + 2 ^ level ≤ length list.old) }
    ensures { Wrote at (tree_days n t.now level g) list.old result list.new }
{
    if level == 0 {
        return day(n, g, p, t, list, at);
    }
    if acceptance::values::mark(t, p) {
        return at;
    }
    let l = level - 1;
    let w = layouts::size(l);
    let h = g - w;
    let left = layouts::tree_at(n, l, h);
    let right = p - 1;
    if l == 0 {
        let b = day(n, h, left, t, list, at);
        return day(n, g, right, t, list, b);
    }
    let b = walk(n, l, h, left, t, list, at);
    walk(n, l, g, right, t, list, b)
}

// Of the maximal chains that make up the days 1 to d, the one of a level, if there is one.
fn top_days(n: u32, d: u32, level: u32, t: &[u8], list: &mut [u32], at: usize) -> usize
    requires { Table 3 n d t.now × (d ≤ length list.old) × (level ≤ 16)
        × (at ≤ d / 2 ^ suc level * 2 ^ suc level) }
    ensures { Wrote at (top_days n d t.now level) list.old result list.new }
{
    let w = layouts::size(level);
    let k = d / w;
    if k % 2 == 0 {
        return at;
    }
    let g = k * w;
    walk(n, level, g, layouts::tree_at(n, level, g), t, list, at)
}

// The maximal chains from left to right.
fn tree_walk(n: u32, d: u32, t: &[u8], list: &mut [u32]) -> usize
    requires { Table 3 n d t.now × (d ≤ length list.old) × (levels_rule n d t.now ≡ true) }
    ensures { Wrote 0 (keep (is_listed 3 n t.now) (days d))
        list.old result list.new }
{
    let mut at = 0;
    for level in (0..17).rev() {
        at = top_days(n, d, level, t, list, at);
    }
    at
}

// The listed days of an accepted table.
pub fn listed(scheme: u32, n: u32, d: u32, t: &[u8], list: &mut [u32]) -> usize
    requires { Table scheme n d t.now × (d ≤ length list.old) × (rule.rules scheme n d t.now ≡ true) }
    ensures { Wrote 0 (keep (is_listed scheme n t.now) (days d))
        list.old result list.new }
{
    match scheme {
        1 => black_days(n, d, t, list),
        2 => tiles_walk(n, d, t, list),
        _ => tree_walk(n, d, t, list),
    }
}
