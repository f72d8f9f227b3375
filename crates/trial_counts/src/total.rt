// How many words there are, "given as two numbers, quotient and remainder by 2^32".
use sheet::Sheet;

/// Words by these two numbers.
#[derive(Clone, Copy, PartialEq, Eq)]
pub struct Total {
    pub quotient: u64,
    pub remainder: u64,
}

// 2^32 less one: the remainder's bits.
const LOW: u64 = 0xffff_ffff;

impl Total {
    pub fn of(words: u64) -> Total {
        Total {
            quotient: words >> 32,
            remainder: words & LOW,
        }
    }

    /// So many more.
    pub fn plus(self, words: u64) -> Total {
        let low = self.remainder.wrapping_add(words & LOW);
        let high = self.quotient.wrapping_add(words >> 32);
        Total {
            quotient: high.wrapping_add(low >> 32),
            remainder: low & LOW,
        }
    }

    /// The words of both.
    pub fn joined(self, more: Total) -> Total {
        let total = self.plus(more.remainder);
        Total {
            quotient: total.quotient.wrapping_add(more.quotient),
            ..total
        }
    }

    /// Whether counting the sheet gives just this.
    pub fn is_counted(self, sheet: Sheet) -> bool {
        let share = counting::count(sheet);
        let counted = Total {
            quotient: share.quotient,
            remainder: share.remainder,
        };
        share.number == 0 && counted == self
    }
}
