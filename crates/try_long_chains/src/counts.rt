// What is counted of sheets with chains of many links.
ghost use Rattle.std.specs.Prelude.{◌≡◌, fold};
ghost use Rattle.try_long_chains.specs.Counts.{nothing, both, laws};

use std::iter::Sum;
use trial::trial_tally;
use trial::trial_tally::{Count, Tally};
use trial_sheets::expected::{Expected, NUMBERS};
use trial_sheets::trial_editions::counts::Seen;

// The most links of a chain that is found without an order.
pub const SHORT: usize = 12;

// All sheets, and those with longer chains.
#[derive(Clone, Copy)]
pub struct Tried {
    pub seen: Seen,
    pub longer: Tally,
}

impl Tried {
    // One sheet, of which this was expected.
    pub fn one(expected: Expected, buffer: &[u64; NUMBERS], same: bool) -> Tried {
        Tried {
            seen: Seen::one(expected, buffer, u64::MAX, same),
            longer: if SHORT < expected.links {
                Tally::one(same)
            } else {
                Tally::none()
            },
        }
    }

    // Three lines of the program's output.
    pub fn print(self, rt: &impl Print, bits: &str) {
        self.seen.print(rt, bits, "bits");
        let _ = println!(rt; "{bits} bits, longer {}", self.longer);
    }
}

impl Count for Tried {
    ghost empty = { nothing };

    ghost both = { both };

    ghost laws = { laws };

    fn none() -> Tried {
        Tried {
            seen: Seen::none(),
            longer: Tally::none(),
        }
    }

    fn plus(self, more: Tried) -> Tried {
        Tried {
            seen: self.seen.plus(more.seen),
            longer: self.longer.plus(more.longer),
        }
    }
}

impl Sum<Tried> for Tried {
    ghost sum_gives = { λ xs s. s ≡ fold both nothing xs };

    fn sum<I: Iterator<Item = Tried> + Drop>(all: I) -> Tried {
        trial_tally::total(all)
    }
}
