// The bits at wide widths, against a way that goes bit by bit: the words that have them are the value with any of the free bits, so
// the largest has all of these and the smallest none.
ghost use Rattle.word.specs.Word.{IsWidth};

use crate::trial_bits::masks::{Sought, Way, compared, found};
use trial::trial_direct::draw;
use trial::trial_tally::Tally;
use word::Width;

// How many words are tried at a width.
const WORDS: u64 = 16;

pub fn over_widths(way: Way) -> Tally {
    [
        over_words(way, Width { bits: 31 }),
        over_words(way, Width { bits: 32 }),
        over_words(way, Width { bits: 63 }),
        over_words(way, Width { bits: 64 }),
    ]
    .into_iter()
    .sum()
}

// Each of sixteen words as the mask, as the value and as p.
fn over_words(way: Way, width: Width) -> Tally
    requires { IsWidth width.bits }
{
    (0..WORDS * WORDS * WORDS)
        .map(|i| at_words(way, width, i))
        .sum()
}

// Looked for upwards the mask may reach past the top word.
fn at_words(way: Way, width: Width, i: u64) -> Tally
    requires { IsWidth width.bits }
{
    let top = width.top();
    let whole = word(width, i % WORDS);
    let mask = match way {
        Way::Next => whole,
        Way::Prev => whole & top,
    };
    let sought = Sought {
        mask,
        value: word(width, i / WORDS % WORDS) & mask,
        p: word(width, i / (WORDS * WORDS)) & top,
    };
    let expected = match way {
        Way::Next => smallest(width, sought),
        Way::Prev => largest(width, sought),
    };
    compared(way, width, sought, found(expected))
}

// The corners, then words that are drawn, and the last five drawn words reach past the width.
fn word(width: Width, i: u64) -> u64
    requires { IsWidth width.bits }
{
    match i {
        0 => 0,
        1 => 1,
        2 => width.half().wrapping_sub(1),
        3 => width.half(),
        4 => width.top().wrapping_sub(1),
        5 => width.top(),
        6..=10 => drawn(i) & width.top(),
        _ => drawn(i),
    }
}

fn drawn(i: u64) -> u64 {
    draw::next(draw::next(i ^ draw::SPREAD))
}

// The smallest at or above p: from the largest, each free bit is cleared, the highest first, where p is not passed.
fn smallest(width: Width, sought: Sought) -> Option<u64>
    requires { IsWidth width.bits }
{
    let top = width.top();
    let free = top & !sought.mask;
    let mut x = sought.value | free;
    if top < x || x < sought.p {
        return None;
    }
    for k in (0..width.bits).rev() {
        let cleared = x ^ free & 1 << k;
        if sought.p <= cleared {
            x = cleared;
        }
    }
    Some(x)
}

// The largest at or below p: from the smallest, each free bit is set, the highest first, where p is not passed.
fn largest(width: Width, sought: Sought) -> Option<u64>
    requires { IsWidth width.bits }
{
    let free = width.top() & !sought.mask;
    let mut x = sought.value;
    if sought.p < x {
        return None;
    }
    for k in (0..width.bits).rev() {
        let set = x | free & 1 << k;
        if set <= sought.p {
            x = set;
        }
    }
    Some(x)
}
