// What a line is made of.
use std::io;
use test_samples::print;

// The call and what it returned.
pub fn head(rt: &HostRuntime, name: &[u8], returned: u32) -> io::Result<()> {
    print::bytes(rt, name)?;
    print::byte(rt, b' ')?;
    print::number(rt, returned)
}

pub fn numbers(rt: &HostRuntime, s: &[u32]) -> io::Result<()> {
    print::byte(rt, b' ')?;
    print::numbers(rt, s, b' ')
}

pub fn bytes(rt: &HostRuntime, s: &[u8]) -> io::Result<()> {
    print::byte(rt, b' ')?;
    print::hex(rt, s, 2)
}

pub fn end(rt: &HostRuntime) -> io::Result<()> {
    print::byte(rt, b'\n')
}
