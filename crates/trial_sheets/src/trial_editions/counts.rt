// What was compared: sheets by their verdicts, the links of their chains, and words at both ends.
ghost use Rattle.std.specs.Prelude.{◌≡◌, fold};
ghost use Rattle.trial_sheets.specs.Counts.{nothing_seen, both_seen, seen_laws, nothing_answered, both_answered, both_laws};

use crate::expected::{Expected, NUMBERS};
use std::iter::Sum;
use trial::trial_tally;
use trial::trial_tally::{Count, Split, Tally, Verdicts};

/// The sheets; their links, those among them that name the bits, and the most that a sheet has; and how many sheets have 0 for their
/// smallest word, and the top word for their largest.
#[derive(Clone, Copy, Debug)]
pub struct Seen {
    pub sheets: Split,
    pub links: u64,
    pub bits: u64,
    pub most: u64,
    pub zeros: u64,
    pub tops: u64,
}

/// The same for each edition, and how many sheets were answered in both, and compared.
#[derive(Clone, Copy, Debug)]
pub struct Both {
    pub new: Seen,
    pub old: Seen,
    pub editions: Tally,
}

impl Seen {
    /// One sheet, of which this was expected.
    pub fn one(expected: Expected, buffer: &[u64; NUMBERS], top: u64, same: bool) -> Seen {
        let Expected {
            verdict,
            smallest,
            largest,
            links,
        } = expected;
        Seen {
            sheets: Split::one(verdict, same),
            links: links as u64,
            bits: of_bits(buffer, links),
            most: links as u64,
            zeros: u64::from(verdict != 0 && smallest == 0),
            tops: u64::from(verdict != 0 && largest == top),
        }
    }

    /// Two lines of the program's output.
    pub fn print(self, rt: &impl Print, name: &str, edition: &str) {
        let Seen {
            sheets,
            links,
            bits,
            most,
            zeros,
            tops,
        } = self;
        let _ = println!(rt; "{name} {edition} {}", Verdicts(sheets));
        let _ = print!(rt;
            "{name} {edition} {links} links, {bits} of bits, at most {most} a sheet; "
        );
        let _ = println!(rt; "{zeros} from 0, {tops} to the top");
    }
}

impl Count for Seen {
    ghost empty = { nothing_seen };

    ghost both = { both_seen };

    ghost laws = { seen_laws };

    fn none() -> Seen {
        Seen {
            sheets: Split::none(),
            links: 0,
            bits: 0,
            most: 0,
            zeros: 0,
            tops: 0,
        }
    }

    fn plus(self, more: Seen) -> Seen {
        Seen {
            sheets: self.sheets.plus(more.sheets),
            links: self.links.wrapping_add(more.links),
            bits: self.bits.wrapping_add(more.bits),
            most: self.most.max(more.most),
            zeros: self.zeros.wrapping_add(more.zeros),
            tops: self.tops.wrapping_add(more.tops),
        }
    }
}

impl Sum<Seen> for Seen {
    ghost sum_gives = { λ xs s. s ≡ fold both_seen nothing_seen xs };

    fn sum<I: Iterator<Item = Seen> + Drop>(all: I) -> Seen {
        trial_tally::total(all)
    }
}

impl Both {
    /// Two lines for each edition, and one for the comparison of the two; or the new edition's alone, of widths that the old has not.
    pub fn print(self, rt: &impl Print, name: &str) {
        self.new.print(rt, name, "new");
        if self.editions.compared == 0 {
            return;
        }
        self.old.print(rt, name, "old");
        let _ = println!(rt; "{name} in both {}", self.editions);
    }
}

impl Count for Both {
    ghost empty = { nothing_answered };

    ghost both = { both_answered };

    ghost laws = { both_laws };

    fn none() -> Both {
        Both {
            new: Seen::none(),
            old: Seen::none(),
            editions: Tally::none(),
        }
    }

    fn plus(self, more: Both) -> Both {
        Both {
            new: self.new.plus(more.new),
            old: self.old.plus(more.old),
            editions: self.editions.plus(more.editions),
        }
    }
}

impl Sum<Both> for Both {
    ghost sum_gives = { λ xs s. s ≡ fold both_answered nothing_answered xs };

    fn sum<I: Iterator<Item = Both> + Drop>(all: I) -> Both {
        trial_tally::total(all)
    }
}

// How many of the links name the bits.
fn of_bits(buffer: &[u64; NUMBERS], links: usize) -> u64 {
    let (places, _) = buffer.as_chunks::<3>();
    places
        .iter()
        .take(links)
        .filter(|[_, _, reason]| *reason == 255)
        .count() as u64
}
