// Writes to standard output the lines `N,k,sets,listed` for N 1, 2, 4 up to 64 and k 1 to 3.
#![tactic(auto)]

use std::io;

fn main(rt: HostRuntime) -> io::Result<()> {
    let mut out = [0u8; 1024];
    let k = ambiguity::lines(&mut out);
    rt.write_all(&out[..k])
}
