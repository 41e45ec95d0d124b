// Whether a value of a table passes, looked up by its name.
ghost use Rattle.std.specs.Prelude.{◌≡◌, ◌<◌, eqb, length, get_or};
ghost use Rattle.layouts.specs.Layouts.{black, tree};
ghost use Rattle.acceptance.specs.Private.{Interval, Chain, passes};

// The value at a place.
pub fn mark(t: &[u8], p: u32) -> bool
    requires { p < length t.now }
    ensures { result ≡ eqb (get_or t.now p 0) 1 }
{
    t[p as usize] == 1
}

pub fn black_passes(scheme: u32, n: u32, g: u32, t: &[u8]) -> bool
    requires { Interval scheme n g t.now }
    ensures { result ≡ passes scheme n t.now (black g) }
{
    mark(t, layouts::black_at(scheme, n, g))
}

pub fn tree_passes(n: u32, l: u32, g: u32, t: &[u8]) -> bool
    requires { Chain n l g t.now }
    ensures { result ≡ passes 3 n t.now (tree l g) }
{
    mark(t, layouts::tree_at(n, l, g))
}
