// What is counted of decimals that are read.
ghost use Rattle.std.specs.Prelude.{◌≡◌, fold};
ghost use Rattle.try_watts.specs.Counts.{nothing, both, laws};

use std::iter::Sum;
use trial::trial_tally;
use trial::trial_tally::{Count, Tally};

// How many were compared, how many of them differ, and the sum of the bits read.
#[derive(Clone, Copy)]
pub struct Seen {
    pub tally: Tally,
    pub bits: u64,
}

impl Seen {
    // Bits that were read, and those expected. In the sum all bits stand for none, where there are too many digits after the point.
    pub fn one(read: Option<u32>, expected: Option<u32>) -> Seen {
        Seen {
            tally: Tally::one(read == expected),
            bits: read.map_or(u64::MAX, |pattern| u64::from(pattern)),
        }
    }

    // Two lines of the program's output.
    pub fn print(self, rt: &impl Print, name: &str) {
        let _ = println!(rt; "{name} {}", self.tally);
        let _ = println!(rt; "{name} bits {}", self.bits);
    }

    // The same, of numbers by whether they were read.
    pub fn print_read(self, rt: &impl Print, name: &str) {
        let Tally { compared, differ } = self.tally;
        let _ = println!(rt; "{name} {compared} accepted, {differ} refused");
        let _ = println!(rt; "{name} bits {}", self.bits);
    }
}

impl Count for Seen {
    ghost empty = { nothing };

    ghost both = { both };

    ghost laws = { laws };

    fn none() -> Seen {
        Seen {
            tally: Tally::none(),
            bits: 0,
        }
    }

    fn plus(self, more: Seen) -> Seen {
        Seen {
            tally: self.tally.plus(more.tally),
            bits: self.bits.wrapping_add(more.bits),
        }
    }
}

impl Sum<Seen> for Seen {
    ghost sum_gives = { λ xs s. s ≡ fold both nothing xs };

    fn sum<I: Iterator<Item = Seen> + Drop>(all: I) -> Seen {
        trial_tally::total(all)
    }
}
