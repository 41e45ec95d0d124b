// What the test programs print.
use std::io;

// The bytes in hexadecimal, with width digits or more each.
pub fn hex(rt: &HostRuntime, s: &[u8], width: usize) -> io::Result<()> {
    for b in s {
        print!(rt; "{b:0width$x}")?;
    }
    Ok(())
}

pub fn bytes(rt: &HostRuntime, s: &[u8]) -> io::Result<()> {
    rt.write_all(s)
}

pub fn number(rt: &HostRuntime, x: u32) -> io::Result<()> {
    print!(rt; "{x}")
}

pub fn byte(rt: &HostRuntime, b: u8) -> io::Result<()> {
    rt.write_all(&[b])
}

// The numbers, with a byte between them.
pub fn numbers(rt: &HostRuntime, s: &[u32], between: u8) -> io::Result<()> {
    for (i, &x) in s.iter().enumerate() {
        if 0 < i {
            byte(rt, between)?;
        }
        number(rt, x)?;
    }
    Ok(())
}

// The SHA-256 of the bytes.
pub fn digest(rt: &HostRuntime, s: &[u8]) -> io::Result<()> {
    let st = hasher::absorb(hasher::empty(), 0, s);
    let h = sha256_words::bytes(hasher::finish(st, s.len() as u64));
    hex(rt, &h, 2)
}

pub fn hex_line(rt: &HostRuntime, s: &[u8]) -> io::Result<()> {
    hex(rt, s, 2)?;
    byte(rt, b'\n')
}

pub fn number_line(rt: &HostRuntime, x: u32) -> io::Result<()> {
    println!(rt; "{x}")
}

// 'NO,' and the number of a refusal.
pub fn refused(rt: &HostRuntime, number: u32) -> io::Result<()> {
    println!(rt; "NO,{number}")
}

pub fn digest_line(rt: &HostRuntime, s: &[u8]) -> io::Result<()> {
    digest(rt, s)?;
    byte(rt, b'\n')
}
