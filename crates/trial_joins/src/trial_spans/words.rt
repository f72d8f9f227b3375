// The span of an operation word by word: every word of x with every word of y. It shares no code with what is tried.
use span::{Interval, Op};

/// The interval that has no word, and is widened from there.
pub const NONE: Interval = Interval {
    low: u64::MAX,
    high: 0,
};

/// What the operation makes of two words.
pub fn result(op: Op, top: u64, a: u64, b: u64) -> u64 {
    match op {
        Op::Not => a ^ top,
        Op::And => a & b,
        Op::Or => a | b,
        Op::Xor => a ^ b,
    }
}

/// An interval that has v too.
pub fn widened(s: Interval, v: u64) -> Interval {
    Interval {
        low: s.low.min(v),
        high: s.high.max(v),
    }
}

/// What the operation makes of all words of x with all of y.
pub fn span(op: Op, top: u64, x: Interval, y: Interval) -> Interval {
    let mut wide = NONE;
    for a in x.low..=x.high {
        for b in y.low..=y.high {
            wide = widened(wide, result(op, top, a, b));
        }
    }
    wide
}
