// Writes digests, one to a line: of the standard's example messages, of a million bytes, of a message of each length
// from 0 to 200 in two cuttings and after a first byte, and of links of words. reference/vectors.py writes what they
// must be.
#![tactic(auto)]

ghost use Rattle.std.specs.Prelude.{◌≤◌, ◌<◌};

use std::{array, io};

// Writes the words as hexadecimal digits, and a line end.
fn print(rt: &HostRuntime, d: [u32; 8]) -> io::Result<()> {
    for x in d {
        print!(rt; "{x:08x}")?;
    }
    println!(rt)
}

// The digest of s, which comes in pieces of size bytes, then the rest.
fn fed(s: &[u8], size: usize) -> [u32; 8]
    requires { 0 < size }
{
    let pieces = s.chunks_exact(size);
    let rest = pieces.remainder();
    let mut state = hasher::empty();
    let mut at = 0;
    for piece in pieces {
        state = hasher::absorb(state, at, piece);
        at += size as u64;
    }
    state = hasher::absorb(state, at, rest);
    hasher::finish(state, s.len() as u64)
}

// The digest of a million bytes 'a', which come in pieces of a thousand.
fn million() -> [u32; 8] {
    let piece = [b'a'; 1000];
    let mut state = hasher::empty();
    for n in 0..1000 {
        state = hasher::absorb(state, n * 1000, &piece);
    }
    hasher::finish(state, 1000000)
}

// Byte i of the message of len bytes is (7 * i + 3 * len + 1) % 256.
fn byte(i: usize, len: usize) -> u8
    requires { (i < 200) × (len ≤ 200) }
{
    ((7 * i + 3 * len + 1) % 256) as u8
}

fn message(len: usize) -> [u8; 200]
    requires { len ≤ 200 }
{
    array::from_fn(|i| byte(i, len))
}

// The message m: in pieces of 7 bytes, in pieces of 100, and after the byte first.
fn lines(rt: &HostRuntime, m: &[u8], first: u8) -> io::Result<()> {
    print(rt, fed(m, 7))?;
    print(rt, fed(m, 100))?;
    print(rt, hasher::digest(first, m))
}

fn line(rt: &HostRuntime, len: usize) -> io::Result<()>
    requires { len ≤ 200 }
{
    let m = message(len);
    lines(rt, &m[..len], len as u8)
}

fn lengths(rt: &HostRuntime) -> io::Result<()> {
    for len in 0..=200 {
        line(rt, len)?;
    }
    Ok(())
}

// Word i of the words k is (i + 1) * 2654435761 + k * 1013904223, modulo 2 ^ 32.
fn word(i: usize, k: usize) -> u32
    requires { (i < 8) × (k < 32) }
{
    (((i + 1) * 2654435761 + k * 1013904223) % 4294967296) as u32
}

fn words(k: usize) -> [u32; 8]
    requires { k < 32 }
{
    array::from_fn(|i| word(i, k))
}

fn links(rt: &HostRuntime) -> io::Result<()> {
    for k in 0..16 {
        print(rt, links::link_words(words(2 * k), words(2 * k + 1)))?;
    }
    Ok(())
}

// The example message of 896 bits.
fn longest() -> [u8; 112] {
    *b"abcdefghbcdefghicdefghijdefghijkefghijklfghijklmghijklmnhijklmnoijklmnopjklmnopqklmnopqrlmnopqrsmnopqrstnopqrstu"
}

// The standard's example messages.
fn examples(rt: &HostRuntime) -> io::Result<()> {
    print(rt, fed(b"", 7))?;
    print(rt, fed(b"abc", 7))?;
    let m = b"abcdbcdecdefdefgefghfghighijhijkijkljklmklmnlmnomnopnopq";
    print(rt, fed(m, 7))?;
    print(rt, fed(&longest(), 7))?;
    print(rt, million())
}

fn main(rt: HostRuntime) -> io::Result<()> {
    examples(&rt)?;
    lengths(&rt)?;
    links(&rt)
}
