// The bits that rules of form 7 fix, and the words that have them.
ghost use Rattle.std.specs.Prelude.{◌≡◌, true, suc, ◌-◌, ◌≤◌};
ghost use Rattle.word.specs.Word.{IsWidth, top};
ghost use Rattle.word.specs.Search.{first};
ghost use Rattle.rule.specs.bits.route.Fixed.{has_bits, joined, Tidy, turned_bits};

use crate::Rule;
use word::Width;

// A word has the bits when its AND with the mask is the value. Where rules clash, no word meets them together.
#[derive(Clone, Copy)]
pub enum Fixed {
    Bits { mask: u64, value: u64 },
    Clash,
}

impl Fixed {
    // Whether the word x has the bits.
    #[tactic(auto, unfolding(crate::specs::bits::route::Fixed::has_bits))]
    pub fn has(self, x: u64) -> bool
        ensures { result ≡ has_bits self x }
    {
        match self {
            Fixed::Bits { mask, value } => x & mask == value,
            Fixed::Clash => false,
        }
    }

    // These bits and, where the rule is of form 7, those that it fixes too.
    pub fn with(self, rule: Rule) -> Fixed
        ensures { result ≡ joined self rule }
    {
        if rule.form != 7 {
            return self;
        }
        let Fixed::Bits { mask, value } = self else {
            return Fixed::Clash;
        };
        let c1 = rule.c1;
        let c2 = rule.c2;
        // a bit of the value that its own mask leaves out
        let is_stray = c2 & c1 != c2;
        if is_stray {
            return Fixed::Clash;
        }
        // a bit that is set in one value and clear in the other
        let differs = value & c1 != c2 & mask;
        if differs {
            return Fixed::Clash;
        }
        Fixed::Bits {
            mask: mask | c1,
            value: value | c2,
        }
    }

    // The smallest word at or above p that has the bits.
    pub fn next(self, width: Width, p: u64) -> Option<u64>
        requires width { IsWidth width.bits }
        requires p_bound { p ≤ top width.bits }
        requires tidy { Tidy self }
        ensures { result ≡ first (has_bits self) (suc (top width.bits) - p) p }
    {
        let Fixed::Bits { mask, value } = self else {
            return None;
        };
        // to set the mask's bits adds this gap to every word that has the bits: sought is the first number that has the whole
        // mask from p and the gap on
        let gap = mask - value;
        if u64::MAX - gap < p {
            return None;
        }
        let from = p + gap;
        let missing = mask & !from;
        if missing == 0 {
            return Some(p);
        }
        // above the highest missing bit it is as before, and from there down it has the mask's bits alone
        let low = u64::MAX >> u64::leading_zeros(missing);
        let x = (from & !low | mask) - gap;
        // the mask may reach past the top word
        if width.top() < x {
            return None;
        }
        Some(x)
    }

    // The smallest word above x that has the bits, where x has them: the other bits count up, and the mask's are set to carry over them.
    pub fn after(self, x: u64) -> Option<u64>
        requires { Tidy self × (has_bits self x ≡ true) }
        ensures { result ≡ first (has_bits self) (suc (top 64) - suc x) (suc x) }
    {
        let Fixed::Bits { mask, value } = self else {
            return None;
        };
        let gap = mask - value;
        let whole = x | mask;
        if whole == u64::MAX {
            return None;
        }
        let next = (whole + 1 | mask) - gap;
        Some(next)
    }

    // The same bits on the wheel of words turned round, where x stands at top - x.
    pub fn turned(self) -> Fixed
        requires { Tidy self }
        ensures { result ≡ turned_bits self }
    {
        match self {
            Fixed::Bits { mask, value } => Fixed::Bits {
                mask,
                value: mask ^ value,
            },
            Fixed::Clash => Fixed::Clash,
        }
    }
}
