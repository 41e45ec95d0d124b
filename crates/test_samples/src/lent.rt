// Buffers: a bit altered, and what a call left as it was.

// Alters one bit of the byte at at.
pub fn flip(s: &mut [u8], at: usize) {
    if let Some(b) = s.get_mut(at) {
        *b ^= 1;
    }
}

// The first place from which on every byte is 170.
pub fn kept(s: &[u8]) -> usize {
    s.iter().rposition(|b| *b != 170).map_or(0, |i| i + 1)
}
