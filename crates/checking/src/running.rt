// The running hashes that a check carries from day to day: under scheme 1 black alone, which copies no slots.
ghost use Rattle.std.specs.Prelude.{◌≡◌, true, ◌++◌, length, drop};
ghost use Rattle.layouts.specs.Layouts.{allowed_scheme, allowed_n, names_of_day};
ghost use Rattle.checking.specs.Private.{State, DayReady, fresh, black_alone, after, compared_day};

use chains::{DayStep, Value};

pub trait Running {
    // The layout and what its chains have come to.
    ghost state: { Self → State };

    // Links day g, whose digest is h, and writes the outcomes of its values to the front of the outcome buffer. Gives
    // their number.
    fn close(&mut self, g: u32, h: [u32; 8], book: &[u8], outcomes: &mut [u8]) -> u32
        requires { DayReady (state self.old) g (length book.now) (length outcomes.old) }
        ensures count { result ≡ length (names_of_day (state self.old).scheme (state self.old).n g) }
        ensures state_after { state self.new ≡ after (state self.old) g h }
        ensures outcomes_after { outcomes.new ≡
            compared_day (state self.old) g h book.now ++ drop result outcomes.old };
}

// Scheme 1: black, with no slots to carry.
#[derive(Drop)]
pub struct Black {
    n: u32,
    black: Value,
}

impl Black {
    pub fn new(n: u32) -> Black
        requires { allowed_n n ≡ true }
        ensures { ⟦<Black as Running>⟧.state result ≡ fresh 1 n }
    {
        Black {
            n,
            black: chains::start(1, n),
        }
    }
}

impl Running for Black {
    ghost state = { λ it. black_alone it.n it.black };

    fn close(&mut self, g: u32, h: [u32; 8], book: &[u8], outcomes: &mut [u8]) -> u32 {
        let black = chains::link_value(self.black, h);
        self.black = black;
        let k = layouts::values_of_day(1, self.n, g);
        if k > 0 {
            let values = [black; 17];
            comparing::all(book, &values[..k as usize], outcomes);
        }
        k
    }
}

// Every scheme: black and the slots.
#[derive(Drop)]
pub struct Slots {
    scheme: u32,
    n: u32,
    start: Value,
    black: Value,
    slots: [Value; 17],
}

impl Slots {
    pub fn new(scheme: u32, n: u32) -> Slots
        requires { (allowed_scheme scheme ≡ true) × (allowed_n n ≡ true) }
        ensures { ⟦<Slots as Running>⟧.state result ≡ fresh scheme n }
    {
        let start = chains::start(scheme, n);
        Slots {
            scheme,
            n,
            start,
            black: start,
            slots: [start; 17],
        }
    }
}

impl Running for Slots {
    ghost state = { λ it. record {
      scheme = it.scheme;
      n = it.n;
      start = it.start;
      black = it.black;
      slots = it.slots;
    } };

    fn close(&mut self, g: u32, h: [u32; 8], book: &[u8], outcomes: &mut [u8]) -> u32 {
        let slots = self.slots;
        let DayStep {
            black,
            slots: linked,
            count,
        } = chains::step(self.scheme, self.n, g, self.black, slots, h);
        self.black = black;
        self.slots = linked;
        if count > 0 {
            let values = chains::day_values(self.scheme, self.n, g, count, black, linked);
            comparing::all(book, &values[..count as usize], outcomes);
            let again = chains::restart_slots(self.scheme, self.n, g, self.start, linked);
            self.slots = again;
        }
        count
    }
}
