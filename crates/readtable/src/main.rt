// Reads a table as text from standard input, and writes to standard output what reading it finds. One byte more than
// a text may have is read, so that a longer one is seen to be too long.
#![tactic(auto)]

fn main(rt: HostRuntime) -> std::io::Result<()> {
    let mut input = [0u8; 1025];
    let n = io::read_full(0, &mut input);
    let mut out = [0u8; 2048];
    let k = table_text::text(&input[..n], &mut out);
    rt.write_all(&out[..k])
}
