// The SHA-256 blocks that a call compresses (SPEC 17.3).
ghost use Rattle.std.specs.Prelude.{◌≡◌, ◌+◌, ◌*◌, ◌/◌, ◌%◌, ◌≤◌};
ghost use Rattle.refusals.specs.Refusals.{day_limit};
ghost use Rattle.service.specs.Contract.{closed_blocks};
ghost use Rattle.service.specs.Private.{Open};

use crate::Record;

// Those that a piece of size bytes fills: the first byte of the open day, 00, is in front of its bytes.
pub fn of_add(state: Record, size: usize) -> u32
    requires { state.bytes + size ≤ day_limit }
    ensures { result ≡ ((state.bytes + 1) % 64 + size) / 64 }
{
    ((state.bytes + 1) % 64 + size as u32) / 64
}

// Those of the day's end, padding included, and two for each link.
pub fn of_close(state: Record) -> u32
    requires { Open state }
    ensures { result ≡ closed_blocks state }
{
    let links = chains::link_count(state.scheme, state.n, state.days + 1);
    ((state.bytes + 1) % 64 + 8) / 64 + 1 + 2 * links
}
