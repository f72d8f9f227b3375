// How many words fit few rules at any width, and which: from turn to turn, with the words that have the bits counted by a plain loop over
// the bits of a word. It shares no code with what is tried.
ghost use Rattle.std.specs.Prelude.{◌<◌};

use crate::pieces::MIXED;
use crate::total::Total;
use arrayvec::ArrayVec;
use rule::Rule;
use trial::trial_wheel::wheel::Wheel;
use trial_sheets::trial_wide::stretches;
use trial_sheets::trial_wide::stretches::STRETCHES;
use word::Width;

// The most bits of a word.
const BITS: u64 = Width::LIMIT;

// What the form 7 rules look at, and what they want there.
#[derive(Clone, Copy)]
struct Wanted {
    pub mask: u64,
    pub value: u64,
}

impl Wanted {
    fn of(rules: &[Rule]) -> Wanted {
        let none = Wanted { mask: 0, value: 0 };
        let bits = rules.iter().filter(|rule| rule.form == 7);
        bits.fold(
            none,
            |wanted, rule| Wanted {
                mask: wanted.mask | rule.c1,
                value: wanted.value | rule.c2,
            },
        )
    }

    // Whether the word of the wanted bits has not what one of the rules wants: then no word has it all.
    fn is_clash(self, rules: &[Rule]) -> bool {
        rules
            .iter()
            .any(|rule| rule.form == 7 && self.value & rule.c1 != rule.c2)
    }

    // Whether the word has the bits.
    fn has(self, x: u64) -> bool {
        x & self.mask == self.value
    }

    // How many words below p have the bits: those that part from p at a bit that p has and they lack, as p above it and free below where
    // no rule looks. `free` is how many ways the bits below are free in.
    fn below(self, p: u64) -> u64 {
        let mut words: u64 = 0;
        let mut free: u64 = 1;
        for k in 0..BITS {
            if self.parts(p, k) {
                words = words.wrapping_add(free);
            }
            if self.mask >> k & 1 == 0 {
                free = free.wrapping_add(free);
            }
        }
        words
    }

    // Whether words that have the bits part from p at bit k.
    fn parts(self, p: u64, k: u64) -> bool
        requires { k < 64 }
    {
        let off = (p ^ 1 << k ^ self.value) & self.mask;
        p >> k & 1 == 1 && off >> k == 0
    }
}

/// How many words fit.
pub fn total(rules: &[Rule], wheel: Wheel) -> Total {
    let wanted = Wanted::of(rules);
    let mut total = Total::of(0);
    if wanted.is_clash(rules) {
        return total;
    }
    let mut x = 0;
    for _ in 0..STRETCHES {
        let end = stretches::around(rules, wheel, x).to;
        if stretches::holds(rules, wheel, x) {
            let below = wanted.below(end).wrapping_sub(wanted.below(x));
            total = total.plus(below).plus(u64::from(wanted.has(end)));
        }
        if wheel.top <= end {
            break;
        }
        x = end + 1;
    }
    total
}

/// The first words from p on, as many as a listing in pieces of all sizes writes.
pub fn words(rules: &[Rule], wheel: Wheel, p: u64) -> ArrayVec<u64, MIXED> {
    let mut list = ArrayVec::new();
    let mut from = p;
    for _ in 0..MIXED {
        let Some(x) = stretches::next(rules, wheel, from) else {
            break;
        };
        let _ = list.try_push(x);
        if wheel.top <= x {
            break;
        }
        from = x + 1;
    }
    list
}
