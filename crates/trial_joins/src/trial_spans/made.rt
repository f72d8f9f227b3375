// The intervals and operations that are tried.
ghost use Rattle.std.specs.Iterator.{at_most};

use crate::trial_spans::expected;
use span::{Interval, Op};

/// The four operations.
pub const OPERATIONS: [Op; 4] = [Op::Not, Op::And, Op::Or, Op::Xor];

/// The wide widths.
pub const WIDE: [u64; 4] = [31, 32, 63, 64];

/// Widths that are refused, and one that is not.
pub const ODD_WIDTHS: [u64; 3] = [0, 3, 65];

/// How many intervals there are between corners, in order or not.
pub const CORNERED: u64 = 7 * 7;

/// How many odd intervals there are.
pub const ODD: u64 = 3 * 3;

/// The operation of a number: they come round and round.
pub fn op(k: u64) -> Op {
    OPERATIONS[(k % 4) as usize]
}

/// All intervals of a width of at most 8 bits, one after the other: n words have n(n + 1)/2.
#[derive(Clone, Copy)]
pub struct Intervals {
    next: Interval,
    top: u64,
    left: u64,
}

impl Intervals {
    pub fn of(width: u64) -> Intervals {
        let top = expected::top(width) & 255;
        Intervals {
            next: Interval { low: 0, high: 0 },
            top,
            left: (top + 1) * (top + 2) / 2,
        }
    }
}

impl Iterator for Intervals {
    type Item = Interval;

    ghost remaining = { λ s. at_most s.left };

    fn next(&mut self) -> Option<Interval> {
        if self.left == 0 {
            return None;
        }
        self.left -= 1;
        let Interval { low, high } = self.next;
        self.next = if high < self.top {
            Interval {
                low,
                high: high + 1,
            }
        } else {
            let above = low.wrapping_add(1);
            Interval {
                low: above,
                high: above,
            }
        };
        Some(Interval { low, high })
    }
}

/// Every word of the width.
pub fn all(width: u64) -> Interval {
    Interval {
        low: 0,
        high: expected::top(width),
    }
}

/// An interval of the words up to top, which is at most 255, from two bytes of a drawn number.
pub fn drawn(s: u64, top: u64) -> Interval {
    let a = s >> 8 & top;
    let b = s >> 32 & top;
    Interval {
        low: a.min(b),
        high: a.max(b),
    }
}

/// 0, half, the top word and their neighbours, in rising order.
pub fn corner(k: u64, top: u64) -> u64 {
    let half = top / 2 + 1;
    match k % 7 {
        0 => 0,
        1 => 1,
        2 => half - 1,
        3 => half,
        4 => half + 1,
        5 => top.wrapping_sub(1),
        _ => top,
    }
}

/// An interval between corners: not every one is in order.
pub fn cornered(k: u64, top: u64) -> Interval {
    Interval {
        low: corner(k, top),
        high: corner(k / 7, top),
    }
}

/// Three intervals of h: every word, from half on, and from 1 to half.
pub fn corner_hs(top: u64) -> [Interval; 3] {
    let half = top / 2 + 1;
    [
        Interval { low: 0, high: top },
        Interval {
            low: half,
            high: top,
        },
        Interval { low: 1, high: half },
    ]
}

/// Intervals whose ends are 0, 7 and 8: some are above the top word of width 3, or in the wrong order.
pub fn odd(k: u64) -> Interval {
    Interval {
        low: odd_end(k),
        high: odd_end(k / 3),
    }
}

fn odd_end(k: u64) -> u64 {
    match k % 3 {
        0 => 0,
        1 => 7,
        _ => 8,
    }
}
