// Words added up, beyond what 64 bits hold.
ghost use Rattle.std.specs.Prelude.{◌≡◌, suc, ◌+◌, ◌-◌, ◌≤◌};
ghost use Rattle.word.specs.Search.{count};
ghost use Rattle.rule.specs.bits.route.Fixed.{Tidy, has_bits};
ghost use Rattle.counting.specs.tally.route.Total.{Carries, totals, whole};

use crate::tally::Total;
use rule::bits::Fixed;

impl Total {
    // What the quotient counts by.
    pub const UNIT: u64 = 0x100000000;

    // No word.
    pub fn none() -> Total
        ensures { result ≡ totals 0 }
    {
        Total {
            quotient: 0,
            remainder: 0,
        }
    }

    // These, and the words from one to another that have the bits. The last word stands by itself, so that 2^64 words one after another are
    // never one number.
    pub fn with(self, fixed: Fixed, first: u64, last: u64) -> Total
        requires { Tidy fixed × (first ≤ last) × Carries self × (whole self ≤ first) }
        ensures { result ≡ totals (whole self + count (has_bits fixed) (suc last - first) first) }
    {
        let total = self.plus(rule::rank::below(fixed, last) - rule::rank::below(fixed, first));
        if fixed.has(last) {
            return total.plus(1);
        }
        total
    }

    // So many more, with the carry.
    fn plus(self, more: u64) -> Total
        requires { Carries self }
        ensures { result ≡ totals (whole self + more) }
    {
        let rest = self.remainder + more % Total::UNIT;
        Total {
            quotient: self.quotient + more / Total::UNIT + rest / Total::UNIT,
            remainder: rest % Total::UNIT,
        }
    }
}
