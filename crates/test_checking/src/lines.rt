// Lines of the checks: the scheme, the case and the answer's number, then what was found.
ghost use Rattle.std.specs.Prelude.{◌*◌, ◌≤◌, length};

use std::io;
use test_samples::calls::Setup;
use test_samples::print;

pub fn head(rt: &HostRuntime, scheme: u32, name: &[u8], number: u32) -> io::Result<()> {
    print::number(rt, scheme)?;
    print::byte(rt, b' ')?;
    print::bytes(rt, name)?;
    print::byte(rt, b' ')?;
    print::number(rt, number)?;
    print::byte(rt, b' ')
}

// Seals a book of k values, and writes its line, with the SHA-256 of the book.
pub fn sealed(
    rt: &HostRuntime,
    s: Setup,
    ledger: &[u8],
    ends: &[u32],
    book: &mut [u8],
    k: usize,
) -> io::Result<()>
    requires { 32 * k ≤ length book.old }
{
    head(rt, s.scheme, b"sealed", s.seal(ledger, ends, book))?;
    print::digest_line(rt, &book[..32 * k])
}
