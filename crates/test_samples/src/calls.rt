// Sealing and checking answered by number: 0, or the number of the refusal.
#[derive(Clone, Copy)]
pub struct Setup {
    pub scheme: u32,
    pub n: u32,
    pub f: u32,
    pub d: u32,
}

impl Setup {
    pub fn new(scheme: u32, n: u32, f: u32, d: u32) -> Setup {
        Setup { scheme, n, f, d }
    }

    pub fn seal(self, ledger: &[u8], ends: &[u32], book: &mut [u8]) -> u32 {
        refusals::number_of(&sealing::seal(self.scheme, self.n, self.f, self.d, ledger, ends, book))
    }

    pub fn check(
        self,
        ledger: &[u8],
        ends: &[u32],
        book: &[u8],
        work: &mut [u8],
        outcomes: &mut [u8],
    ) -> u32 {
        refusals::number_of(&checking::check(
            self.scheme,
            self.n,
            self.f,
            self.d,
            ledger,
            ends,
            book,
            work,
            outcomes,
        ))
    }

    // Checks up to a thousand days.
    pub fn check_days(self, ledger: &[u8], ends: &[u32], book: &[u8], outcomes: &mut [u8]) -> u32 {
        let mut work = [0u8; 32000];
        self.check(ledger, ends, book, &mut work, outcomes)
    }
}
