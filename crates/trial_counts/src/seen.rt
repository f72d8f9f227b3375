// What was compared: counts with the words that they were to give in all, and listings with the words that they were to write.
use crate::total::Total;
use trial::trial_tally::Tally;

#[derive(Clone, Copy)]
pub struct Seen {
    pub counts: Tally,
    pub total: Total,
    pub lists: Tally,
    pub words: u64,
}

impl Seen {
    pub fn none() -> Seen {
        Seen {
            counts: Tally::none(),
            total: Total::of(0),
            lists: Tally::none(),
            words: 0,
        }
    }

    /// One count, which was to give so many.
    pub fn counted(total: Total, same: bool) -> Seen {
        Seen {
            counts: Tally::one(same),
            total,
            ..Seen::none()
        }
    }

    /// One call of the listing, which was to write so many words.
    pub fn listed(words: usize, same: bool) -> Seen {
        Seen {
            lists: Tally::one(same),
            words: words as u64,
            ..Seen::none()
        }
    }

    pub fn plus(self, more: Seen) -> Seen {
        Seen {
            counts: self.counts.plus(more.counts),
            total: self.total.joined(more.total),
            lists: self.lists.plus(more.lists),
            words: self.words.wrapping_add(more.words),
        }
    }

    /// Four lines of the program's output.
    pub fn tell(self, rt: &impl Print, name: &str) {
        let Total {
            quotient,
            remainder,
        } = self.total;
        let _ = println!(rt; "{name} counts {}", self.counts);
        let _ = println!(rt; "{name} counted {quotient} * 2^32 + {remainder}");
        let _ = println!(rt; "{name} lists {}", self.lists);
        let _ = println!(rt; "{name} listed {}", self.words);
    }
}
