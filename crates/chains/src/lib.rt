// The running hashes of a service: what one more day does to black, to the tile chains and to the tree's levels, and
// which of them are values of that day. Closing a day and checking one use the same links.
#![tactic(auto)]

ghost use Rattle.std.specs.Prelude.{◌≡◌, true, cond, ◌+◌, ◌≤◌, ◌<◌, length, take};
ghost use Rattle.refusals.specs.Refusals.{book_limit};
ghost use Rattle.layouts.specs.Layouts.{allowed_scheme, allowed_n, names_of_day, chains_of_day};
ghost use Rattle.chains.specs.Step.{start_value, linked, links_slot, stores_slot, stores_black, link_slot};
ghost use Rattle.chains.specs.Step.{linked_slots, restart_slot, restarted, day_values, links_of};
ghost use Rattle.prepared.specs.Private.{Prepared};
ghost use Rattle.links.specs.Private.{front, back};
ghost use Rattle.chains.specs.Private.{DayLinked, Fronts, levels_linked};

use lanes::Rows;

#[derive(Clone, Copy)]
pub struct Value {
    pub words: [u32; 8],
}

// The running hashes with a day linked, and the number of the day's values.
#[derive(Drop)]
pub struct DayStep {
    pub black: Value,
    pub slots: [Value; 17],
    pub count: u32,
}

// The start of a chain: the digest of the byte 2, the scheme and lg n, a byte each.
pub fn start(scheme: u32, n: u32) -> Value
    requires { (scheme < 256) × (allowed_n n ≡ true) }
    ensures { result ≡ start_value scheme n }
{
    let m = layouts::lg(n);
    let layout = [scheme as u8, m as u8];
    Value {
        words: hasher::digest(2, &layout),
    }
}

// A value linked to the digest h.
#[tactic(auto, unfolding(crate::specs::Step::linked))]
pub fn link_value(v: Value, h: [u32; 8]) -> Value
    ensures { result ≡ linked v h }
{
    Value {
        words: links::link_words(v.words, h),
    }
}

// The same, with the second block of every link to h prepared.
#[tactic(auto, unfolding(crate::specs::Step::linked))]
pub fn link_by(v: Value, h: [u32; 8], t: &[u32; 64]) -> Value
    requires { Prepared (back h) t.now }
    ensures { result ≡ linked v h }
{
    Value {
        words: links::link_by(v.words, h, t),
    }
}

fn links_slot(scheme: u32, n: u32, g: u32, i: u32) -> bool
    requires { (allowed_n n ≡ true) × (1 ≤ g) }
    ensures { result ≡ links_slot scheme n g i }
{
    match scheme {
        2 => i <= layouts::lg(n) && layouts::covers(n, i, (g - 1) % n),
        3 => true,
        _ => false,
    }
}

// How often day g is linked under scheme 2: to black, and to the slots of tile chains that cover it.
#[tactic(auto, using(crate::proofs::BlockLaws::slot_links_most), unfolding(crate::specs::Step::links_of))]
fn tile_link_count(n: u32, g: u32) -> u32
    requires { (allowed_n n ≡ true) × (1 ≤ g) }
    ensures { result ≡ links_of 2 n g }
{
    let mut links = 1;
    for i in 0..17 {
        links += u32::from(links_slot(2, n, g, i));
    }
    links
}

// How often day g is linked (SPEC 17.2): to black, to tile chains, to the levels of the tree.
#[tactic(auto, unfolding(crate::specs::Step::links_of))]
pub fn link_count(scheme: u32, n: u32, g: u32) -> u32
    requires { (allowed_n n ≡ true) × (1 ≤ g) }
    ensures { result ≡ links_of scheme n g }
{
    match scheme {
        2 => tile_link_count(n, g),
        3 => 18,
        _ => 1,
    }
}

fn stores_slot(scheme: u32, n: u32, g: u32, i: u32) -> bool
    requires { (allowed_n n ≡ true) × (i ≤ 16) }
    ensures { result ≡ stores_slot scheme n g i }
{
    match scheme {
        2 => i <= layouts::lg(n) && g % n == 0,
        3 => g % layouts::size(i) == 0,
        _ => false,
    }
}

#[tactic(auto, using(crate::proofs::Slots::lg_day, crate::proofs::Slots::black_tree))]
fn stores_black(scheme: u32, n: u32, g: u32) -> bool
    requires { (allowed_scheme scheme ≡ true) × (allowed_n n ≡ true) × (1 ≤ g) × (g ≤ book_limit) }
    ensures { result ≡ stores_black scheme n g }
{
    g % n == 0 && (scheme != 3 || layouts::size(layouts::lg(g)) != g)
}

// The first blocks of the links of the slots 0 to 15, in lanes.
fn fronts(slots: [Value; 17], h: [u32; 8]) -> Rows<16>
    ensures { Fronts slots h result }
{
    let mut w = [[0; 16]; 16];
    for j in 0..16 {
        lanes::put(&mut w, j, links::front(slots[j].words, h));
    }
    w
}

// Every slot linked, as the tree's levels are each day: 0 to 15 side by side, 16 by itself.
pub fn link_levels(slots: [Value; 17], h: [u32; 8]) -> [Value; 17]
    ensures { result ≡ levels_linked h slots }
{
    let s = links::link_lanes(fronts(slots, h), h);
    let mut r = slots;
    for i in 0..16 {
        r[i] = Value {
            words: lanes::state(&s, i),
        };
    }
    r[16] = link_value(slots[16], h);
    r
}

// The slots after day g: those whose chains are values of it start again.
pub fn restart_slots(scheme: u32, n: u32, g: u32, start: Value, slots: [Value; 17]) -> [Value; 17]
    requires { allowed_n n ≡ true }
    ensures { result ≡ restarted scheme n g start slots }
{
    let mut r = slots;
    for i in 0..17 {
        if stores_slot(scheme, n, g, i) {
            r[i as usize] = start;
        }
    }
    r
}

// The values of day g, k of them: the slots in their order, then black where it is one of its own.
pub fn day_values(
    scheme: u32,
    n: u32,
    g: u32,
    k: u32,
    black: Value,
    slots: [Value; 17],
) -> [Value; 17]
    requires { (allowed_scheme scheme ≡ true) × (allowed_n n ≡ true) × (1 ≤ g) × (g ≤ book_limit)
        × (k ≡ length (names_of_day scheme n g)) }
    ensures { take k result ≡ day_values scheme n g black slots }
{
    let mut r = slots;
    if stores_black(scheme, n, g) {
        r[k as usize - 1] = black;
    }
    r
}

// The slots of the tile chains that cover day g linked; those behind c(lg N) stay.
pub fn link_tiles(n: u32, g: u32, slots: [Value; 17], h: [u32; 8], t: &[u32; 64]) -> [Value; 17]
    requires { (allowed_n n ≡ true) × (1 ≤ g) × Prepared (back h) t.now }
    ensures { result ≡ linked_slots 2 n g h slots }
{
    let mut r = slots;
    for i in 0..=layouts::lg(n) {
        if links_slot(2, n, g, i) {
            r[i as usize] = link_by(slots[i as usize], h, t);
        }
    }
    r
}

// Day g under scheme 2. The second block of a link depends on the digest alone, so it is prepared once for all.
fn tile_step(n: u32, g: u32, count: u32, black: Value, slots: [Value; 17], h: [u32; 8]) -> DayStep
    requires { (allowed_n n ≡ true) × (1 ≤ g) × (count ≡ length (chains_of_day 2 n g)) }
    ensures { DayLinked 2 n g black slots h result }
{
    let t = links::tail(h);
    DayStep {
        black: link_by(black, h, &t),
        slots: link_tiles(n, g, slots, h, &t),
        count,
    }
}

// One more day, g, whose digest is h, linked to the chains that cover it. Under scheme 1 no slot is in use. What is a
// value of the day is taken by `day_values`, and then started again by `restart_slots`: on a day that has none the
// slots are copied no further.
pub fn step(scheme: u32, n: u32, g: u32, black: Value, slots: [Value; 17], h: [u32; 8]) -> DayStep
    requires { (allowed_scheme scheme ≡ true) × (allowed_n n ≡ true) × (1 ≤ g) × (g ≤ book_limit) }
    ensures { DayLinked scheme n g black slots h result }
{
    let count = layouts::values_of_day(scheme, n, g);
    match scheme {
        2 => tile_step(n, g, count, black, slots, h),
        3 => DayStep {
            black: link_value(black, h),
            slots: link_levels(slots, h),
            count,
        },
        _ => DayStep {
            black: link_value(black, h),
            slots,
            count,
        },
    }
}
