// How many words have the bits that rules of form 7 fix.

ghost use Rattle.std.specs.Prelude.{◌≡◌};
ghost use Rattle.word.specs.Search.{count};
ghost use Rattle.rule.specs.bits.route.Fixed.{has_bits, Tidy};

use crate::bits::Fixed;

// How many words below p have the bits: by pairs of words that differ in the lowest bit alone.
pub fn below(fixed: Fixed, p: u64) -> u64
    requires { Tidy fixed }
    ensures { result ≡ count (has_bits fixed) p 0 }
{
    let Fixed::Bits { mask, value } = fixed else {
        return 0;
    };
    if p == 0 {
        return 0;
    }
    let halved = Fixed::Bits {
        mask: mask / 2,
        value: value / 2,
    };
    // the pairs that have the higher bits; where the lowest bit is fixed one word of each has it, else both have
    let pairs = below(halved, p / 2);
    let paired = pairs * (2 - mask % 2);
    if p % 2 == 0 {
        return paired;
    }
    // the last word is the first of a pair
    if (p - 1) & mask != value {
        return paired;
    }
    paired + 1
}
