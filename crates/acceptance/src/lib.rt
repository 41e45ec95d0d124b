// The rules by which a table is accepted, each about a few values, which are looked up by name.
#![tactic(auto)]

pub mod values;

ghost use Rattle.std.specs.Prelude.{◌≡◌, not, ◌&&◌, ◌||◌, ◌-◌, ◌≤◌, ◌<◌};
ghost use Rattle.lists.specs.Lists.{up_from, every};
ghost use Rattle.layouts.specs.Layouts as layout;
ghost use Rattle.layouts.specs.Layouts.{black, tile, tree};
ghost use Rattle.layouts.specs.Private.{position};
ghost use Rattle.acceptance.specs.Private as rule;
ghost use Rattle.acceptance.specs.Private.{Table, Has, Interval, passes, tile_rule, block_rule};
ghost use Rattle.acceptance.specs.Private.{LastFailed, DayRules, levels_rule, blocks_rule};

// Where c(0), which stands at place p, passes, so do c(1) to c(lg n), which stand behind it.
fn tile_rules(n: u32, g: u32, p: u32, t: &[u8]) -> bool
    requires { Interval 2 n g t.now × (p ≡ position 2 n (tile 0 g)) }
    ensures { result ≡ every (tile_rule n t.now g) (up_from 1 (layout.lg n)) }
{
    if !values::mark(t, p) {
        return true;
    }
    for i in 1..=layouts::lg(n) {
        if !values::mark(t, p + i) {
            return false;
        }
    }
    true
}

// The interval that ends at g under scheme 2: before is the outcome of the black before it, own of its own.
fn tile_block(n: u32, g: u32, before: bool, own: bool, t: &[u8]) -> bool
    requires { Interval 2 n g t.now × (before ≡ rule.prior 2 n t.now g) × (own ≡ passes 2 n t.now (black g)) }
    ensures { result ≡ block_rule 2 n t.now g }
{
    let p = layouts::tile_at(n, 0, g);
    let whole = before && values::mark(t, p);
    let agrees = own == whole;
    agrees && tile_rules(n, g, p, t)
}

// Under scheme 3.
fn tree_block(n: u32, g: u32, before: bool, own: bool, t: &[u8]) -> bool
    requires { Interval 3 n g t.now × (before ≡ rule.prior 3 n t.now g) × (own ≡ passes 3 n t.now (black g)) }
    ensures { result ≡ block_rule 3 n t.now g }
{
    let whole = before && values::tree_passes(n, layouts::lg(n), g, t);
    own == whole
}

#[tactic(auto, using(crate::proofs::Steps::black_failed, crate::proofs::Steps::black_passed))]
fn block_rule(scheme: u32, n: u32, g: u32, before: bool, own: bool, t: &[u8]) -> bool
    requires { Interval scheme n g t.now × (before ≡ rule.prior scheme n t.now g)
        × (own ≡ passes scheme n t.now (black g)) }
    ensures { result ≡ block_rule scheme n t.now g }
{
    match scheme {
        1 => !own || before,
        2 => tile_block(n, g, before, own, t),
        _ => tree_block(n, g, before, own, t),
    }
}

// The intervals in turn, with the outcome of the black before.
fn block_rules(scheme: u32, n: u32, d: u32, t: &[u8]) -> bool
    requires { Table scheme n d t.now }
    ensures { result ≡ blocks_rule scheme n d t.now }
{
    let mut before = true;
    for k in 1..=d / n {
        let g = k * n;
        let own = values::black_passes(scheme, n, g, t);
        if !block_rule(scheme, n, g, before, own, t) {
            return false;
        }
        before = own;
    }
    true
}

// The last day of the days 1 to g whose own chain fails, or 0: s is that of the days before g. Its own chain of the
// tree stands at place p.
fn last_failed(n: u32, g: u32, p: u32, s: u32, t: &[u8]) -> u32
    requires { Has 3 n g t.now × (p ≡ position 3 n (tree 0 g)) × LastFailed n t.now (g - 1) s }
    ensures { LastFailed n t.now g result }
{
    if values::mark(t, p) { s } else { g }
}

// The tree's chains of level 1 and up that end at g, which stand behind its own: each passes exactly if the last failed
// day comes before it.
fn day_rules(n: u32, g: u32, p: u32, s: u32, t: &[u8]) -> bool
    requires { Has 3 n g t.now × (p ≡ position 3 n (tree 0 g)) × (s ≤ g) }
    ensures { DayRules n t.now g s result }
{
    // days is layouts::size(l), carried: a shift in each turn takes a fifth more time where few days failed
    let mut days = 2;
    for l in 1..=g.trailing_zeros() {
        let own = values::mark(t, p + l);
        let since = days + s <= g;
        let agrees = own == since;
        if !agrees {
            return false;
        }
        days = 2 * days;
    }
    true
}

// Whether each chain of the tree is its two halves, day by day.
fn level_rules(n: u32, d: u32, t: &[u8]) -> bool
    requires { Table 3 n d t.now }
    ensures { result ≡ levels_rule n d t.now }
{
    let mut s = 0;
    for g in 1..=d {
        let p = layouts::tree_at(n, 0, g);
        s = last_failed(n, g, p, s, t);
        if !day_rules(n, g, p, s, t) {
            return false;
        }
    }
    true
}

pub fn accepts(scheme: u32, n: u32, d: u32, t: &[u8]) -> bool
    requires { Table scheme n d t.now }
    ensures { result ≡ rule.rules scheme n d t.now }
{
    block_rules(scheme, n, d, t) && (scheme != 3 || level_rules(n, d, t))
}
