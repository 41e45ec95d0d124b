// Where a book goes on.
ghost use Rattle.std.specs.Prelude.{◌≤◌};

// After k values at at; the book's length len at most.
pub fn past(at: usize, k: u32, len: usize) -> usize
    ensures { result ≤ len }
{
    at.saturating_add(32 * k as usize).min(len)
}
