// Nets that are drawn by a fixed rule, so that every run tries the same ones, and nets that are made to end at a given place.
use crate::trial_spans::{expected, made};
use net::{Join, Net};
use span::{Interval, Op};
use trial::trial_direct::draw::next;

/// A net that the seed draws: so many words, and 1 to 6 joins of them.
pub fn drawn(seed: u64, width: u64, count: usize) -> Net {
    Net {
        width,
        words: intervals(seed, expected::top(width), count),
        count,
        joins: joins(seed, count),
        joined: (1 + (seed >> 40) % 6) as usize,
    }
}

// Half of the intervals in use are every word; places not in use hold one word.
fn intervals(seed: u64, top: u64, count: usize) -> [Interval; Net::WORDS] {
    let mut words = [Interval { low: 7, high: 7 }; Net::WORDS];
    let mut s = seed;
    for word in words.iter_mut().take(count) {
        s = next(s);
        *word = interval(s, top);
    }
    words
}

fn interval(s: u64, top: u64) -> Interval {
    if s >> 60 & 1 == 0 {
        return Interval { low: 0, high: top };
    }
    made::drawn(s, top)
}

fn joins(seed: u64, count: usize) -> [Join; Net::JOINS] {
    let mut joins = [join(Op::Not, 0, 0, 0); Net::JOINS];
    let mut s = next(seed);
    for drawn in joins.iter_mut() {
        s = next(s);
        *drawn = drawn_join(s, count);
    }
    joins
}

fn drawn_join(s: u64, count: usize) -> Join {
    if count == 0 {
        return join(Op::Not, 0, 0, 0);
    }
    let h = (s >> 8 & 15) as usize % count;
    let x = (s >> 16 & 15) as usize % count;
    let y = (s >> 24 & 15) as usize % count;
    join(made::op(s >> 32 & 3), h, x, y)
}

pub fn join(op: Op, h: usize, x: usize, y: usize) -> Join {
    Join { op, h, x, y }
}

/// Four words at width 2: 2, 1, which is NOT 2, 0, and any.
pub fn unchanged() -> [Interval; Net::WORDS] {
    let mut words = [Interval { low: 9, high: 3 }; Net::WORDS];
    words[0] = Interval { low: 2, high: 2 };
    words[1] = Interval { low: 1, high: 1 };
    words[2] = Interval { low: 0, high: 0 };
    words[3] = Interval { low: 0, high: 3 };
    words
}

/// So many joins that change nothing, with the join at place p the odd one.
pub fn odd_at(joined: usize, p: usize, odd: Join) -> Net {
    let mut joins = [join(Op::Not, 0, 1, 99); Net::JOINS];
    if p < Net::JOINS {
        joins[p] = odd;
    }
    Net {
        width: 2,
        words: unchanged(),
        count: 4,
        joins,
        joined,
    }
}

/// What the join that changes the fourth word leaves: NOT 2.
pub fn changed() -> [Interval; Net::WORDS] {
    let mut words = unchanged();
    words[3] = Interval { low: 1, high: 1 };
    words
}
