// Masks and values, each mask with each value that lies in it, against a search that goes one word at a time.
ghost use Rattle.std.specs.Prelude.{◌<◌, ◌≤◌};
ghost use Rattle.word.specs.Word.{IsWidth};

use crate::trial_bits::called;
use rule::bits::Fixed;
use trial::trial_direct::rules::rule;
use trial::trial_tally::Tally;
use word::Width;

// The widest words that every mask is tried on.
const WIDEST: u64 = 5;

/// Which way the bits are looked for.
#[derive(Clone, Copy, Debug)]
pub enum Way {
    Next,
    Prev,
}

/// The bits, and where they are looked for from.
#[derive(Clone, Copy, Debug)]
pub struct Sought {
    pub mask: u64,
    pub value: u64,
    pub p: u64,
}

/// Every mask that reaches at most one bit past the top word, every value and every word, at the widths 1 to 5.
pub fn small(way: Way) -> Tally {
    (1..WIDEST + 1)
        .map(|bits| over_numbers(way, Width { bits }))
        .sum()
}

// A number has one bit more than a word for the mask, as many for the value, and the rest for p.
fn over_numbers(way: Way, width: Width) -> Tally
    requires { (1 ≤ width.bits) × (width.bits < 6) }
{
    let ones = (2 << width.bits) - 1;
    (0..4 << (3 * width.bits))
        .map(|i| {
            let sought = Sought {
                mask: i & ones,
                value: i >> (width.bits + 1) & ones,
                p: i >> (2 * width.bits + 2),
            };
            compared(way, width, sought, searched(way, width, sought))
        })
        .sum()
}

/// One answer compared, or none where it may not be looked for: a value has no bit outside its mask, p is a word, and looked
/// for downwards, by calls, so is the mask.
pub fn compared(way: Way, width: Width, sought: Sought, expected: Option<u64>) -> Tally
    requires { IsWidth width.bits }
{
    let Sought { mask, value, p } = sought;
    let top = width.top();
    if value & mask != value || top < p {
        return Tally::none();
    }
    match way {
        Way::Next => {
            let fixed = Fixed::Bits { mask, value };
            Tally::one(same(fixed.next(width, p), expected))
        }
        Way::Prev if top < mask => Tally::none(),
        Way::Prev => {
            let rules = [rule(7, 0, mask, value)];
            Tally::one(called::at_most(&rules, width, p, expected))
        }
    }
}

/// Whether two searches found the same.
pub fn same(found: Option<u64>, expected: Option<u64>) -> bool {
    match (found, expected) {
        (Some(x), Some(y)) => x == y,
        (None, None) => true,
        _ => false,
    }
}

/// The word found, or that there is none.
pub fn found(word: Option<u64>) -> Option<u64> {
    match word {
        Some(x) => Some(x),
        None => None,
    }
}

// The first word from p up or down that has the bits.
fn searched(way: Way, width: Width, sought: Sought) -> Option<u64>
    requires { (1 ≤ width.bits) × (width.bits < 6) }
{
    let Sought { mask, value, p } = sought;
    found(match way {
        Way::Next => (p..1 << width.bits).find(|x| *x & mask == value),
        Way::Prev => (0..=p).rev().find(|x| *x & mask == value),
    })
}

/// Wrong expectations, on the odd words: from 2 the next one is 3, and the one before is 1; and from 0 downwards there is none.
pub fn known() -> Tally {
    [
        wrong(Way::Next, 2, Some(2)),
        wrong(Way::Next, 2, None),
        wrong(Way::Prev, 2, Some(2)),
        wrong(Way::Prev, 2, None),
        wrong(Way::Prev, 0, Some(0)),
    ]
    .into_iter()
    .sum()
}

fn wrong(way: Way, p: u64, expected: Option<u64>) -> Tally {
    let sought = Sought {
        mask: 1,
        value: 1,
        p,
    };
    compared(way, Width { bits: 4 }, sought, expected)
}
