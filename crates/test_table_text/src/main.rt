// Writes what table_text says to many texts, each after its name. Standard input has the names and texts, with a '#'
// after each; reference/table_text_cases.py writes it, and what is to be written.
#![tactic(auto)]

use std::io;
use std::io::Read;

fn show(rt: &HostRuntime, name: &[u8], input: &[u8]) -> io::Result<()> {
    let mut out = [0u8; 2048];
    let n = table_text::text(input, &mut out);
    rt.write_all(name)?;
    rt.write_all(b"\n")?;
    rt.write_all(&out[..n])
}

// The part without its '#'.
fn without_end(part: &[u8]) -> &[u8] {
    part.strip_suffix(b"#").unwrap_or(part)
}

fn cases(rt: &HostRuntime, s: &[u8]) -> io::Result<()> {
    let mut parts = s.split_inclusive(|b| *b == b'#');
    while let Some(name) = parts.next() {
        let text = parts.next().unwrap_or(b"");
        show(rt, without_end(name), without_end(text))?;
    }
    Ok(())
}

fn main(rt: HostRuntime) -> io::Result<()> {
    let mut input = Vec::new(rt.alloc());
    rt.reader().read_to_end(&mut input)?;
    cases(&rt, &input)
}
