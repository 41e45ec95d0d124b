// Searching a table of the tree for its changed days, chain by chain, with a stop (SPEC 20).
#![tactic(auto)]

ghost use Rattle.std.specs.Prelude.{◌≡◌, ◌++◌, ◌≤◌, ◌<◌, length, drop};
ghost use Rattle.refusals.specs.Refusals.{book_limit};
ghost use Rattle.reading.specs.Private.{Given};
ghost use Rattle.searching.specs.Searching.{search_tested, progress_of, found_days, searched};
ghost use Rattle.searching.specs.Private.{Fits, Largest, Looked};

use refusals::Refusal;

// The chains looked at, the days found, and the days under chains that are due and not looked at.
#[derive(Clone, Copy, Debug, PartialEq, Eq)]
pub struct Progress {
    pub looked: u32,
    pub found: u32,
    pub undecided: u32,
}

// Where the walk is: the days up to day are decided, found of them are changed, and the chain that is due first, behind
// day, has this level.
#[derive(Clone, Copy)]
struct Cursor {
    found: u32,
    day: u32,
    level: u32,
}

// Tests 1 2 3 7 8 12 13 14 20 (SPEC 11.12).
#[tactic(auto, using(crate::proofs::Calls::search_laws))]
fn test_search(
    scheme: u32,
    n: u32,
    f: u32,
    d: u32,
    outcomes: &[u8],
    places: usize,
) -> Result<(), Refusal>
    ensures { result ≡ search_tested scheme n f d outcomes.now places }
{
    layouts::test_layout(scheme, n, f, d)?;
    reading::test_table(scheme, n, d, outcomes, places)?;
    if scheme != 3 {
        return Err(Refusal::NotTree);
    }
    Ok(())
}

// The level of the largest chain that starts behind day g and ends by day d: the one due next when the days up to g are
// decided.
fn level_behind(d: u32, g: u32) -> u32
    requires { (g ≤ d) × (d ≤ book_limit) }
    ensures { g < d → Largest d g result }
{
    if g == d {
        return 0;
    }
    let longest = layouts::lg(d - g);
    longest.min(g.trailing_zeros())
}

// One look, at the chain that is due first. A failing one of more days than one gives way to its left half, which
// starts at the same day; any other is decided.
fn look(n: u32, d: u32, t: &[u8], c: Cursor, list: &mut [u32]) -> Cursor
    requires { Given 3 n d t.now (length list.old) × Fits d c.day c.level × (c.found ≤ c.day) }
    ensures { Looked n d t.now c list.old result list.new }
{
    let g = c.day + layouts::size(c.level);
    let passes = acceptance::values::tree_passes(n, c.level, g, t);
    if passes {
        return Cursor {
            day: g,
            level: level_behind(d, g),
            ..c
        };
    }
    if c.level != 0 {
        return Cursor {
            level: c.level - 1,
            ..c
        };
    }
    list[c.found as usize] = g;
    Cursor {
        found: c.found + 1,
        day: g,
        level: level_behind(d, g),
    }
}

// The walk of a table that some set gives, until limit chains are looked at or none is due: the days found to the front
// of the list.
fn walk(n: u32, d: u32, t: &[u8], limit: u32, list: &mut [u32]) -> Progress
    requires { Given 3 n d t.now (length list.old) }
    ensures value { result ≡ progress_of n d t.now limit }
    ensures list_after { list.new ≡ found_days n d t.now limit ++
        drop (length (found_days n d t.now limit)) list.old }
{
    let mut looked = 0;
    let mut c = Cursor {
        found: 0,
        day: 0,
        level: level_behind(d, 0),
    };
    // looked is an answer too, and the walk may end before the limit: a `for` would be no plainer
    while looked < limit && c.day < d {
        looked += 1;
        c = look(n, d, t, c, list);
    }
    Progress {
        looked,
        found: c.found,
        undecided: d - c.day,
    }
}

// Searches the outcomes needed, in book order, looking at no more than limit chains: writes the days found to the front
// of the list and gives the numbers, or refuses and writes nothing.
pub fn search(
    scheme: u32,
    n: u32,
    f: u32,
    d: u32,
    outcomes: &[u8],
    limit: u32,
    list: &mut [u32],
) -> Result<Progress, Refusal>
    ensures value { result ≡ (searched scheme n f d outcomes.now limit list.old).answer }
    ensures list_after { list.new ≡
        (searched scheme n f d outcomes.now limit list.old).list }
{
    test_search(scheme, n, f, d, outcomes, list.len())?;
    let values = layouts::values_through(scheme, n, d) as usize;
    Ok(walk(n, d, &outcomes[..values], limit, list))
}
