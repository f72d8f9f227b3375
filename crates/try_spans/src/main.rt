// Compares joins with what is searched: every interval at small widths, drawn ones at middle widths, corners at wide ones, and
// what is refused. How many comparisons there are follows from how many intervals there are: n words have n(n + 1)/2, so widths 1
// to 4 have 3, 10, 36 and 136, which is 19,901 pairs, and widths 1 to 3 have 47,683 triples; each is tried for four operations.
// Seven corners have 28 intervals, which is 784 pairs, at four widths, with three intervals of h and four operations.
#![tactic(auto)]

use span::{Interval, Op};
use trial::trial_direct::draw::next;
use trial::trial_tally::Tally;
use trial_joins::trial_spans::expected::{Asked, reversed};
use trial_joins::trial_spans::made::Intervals;
use trial_joins::trial_spans::{blocks, expected, made, words};

// The widest words with all pairs of intervals, and with all triples.
const PAIRED: u64 = 4;

const TRIPLED: u64 = 3;

const DRAWN: u64 = 4000;

fn main() {
    pairs(words::span).print(b"pairs, word by word:");
    pairs(blocks::span).print(b"pairs, block by block:");
    triples().print(b"triples:");
    drawn().print(b"drawn:");
    corners().print(b"corners:");
    refusals().print(b"refusals:");
    known().print(b"known:");
}

// A join against the one that is expected, where an operation's span is searched so.
fn one<S: Fn(Op, u64, Interval, Interval) -> Interval>(span: S, asked: Asked) -> Tally
    requires { S.IsAlwaysCallable span }
{
    let Asked { width, op, h, x, y } = asked;
    Tally::one(span::join(width, op, h, x, y) == asked.joined(span))
}

// The four operations.
fn four<S: Fn(Op, u64, Interval, Interval) -> Interval + Copy>(
    span: S,
    width: u64,
    h: Interval,
    x: Interval,
    y: Interval,
) -> Tally
    requires { S.IsAlwaysCallable span }
{
    let mut tally = Tally::none();
    for op in made::OPERATIONS {
        tally = tally.plus(one(span, Asked { width, op, h, x, y }));
    }
    tally
}

// All intervals of x and of y at widths 1 to 4, with every word for h.
fn pairs<S: Fn(Op, u64, Interval, Interval) -> Interval + Copy>(span: S) -> Tally
    requires { S.IsAlwaysCallable span }
{
    let mut tally = Tally::none();
    for width in 1..=PAIRED {
        let every = made::all(width);
        for x in Intervals::of(width) {
            for y in Intervals::of(width) {
                tally = tally.plus(four(span, width, every, x, y));
            }
        }
    }
    tally
}

// All intervals of h, x and y at widths 1 to 3.
fn triples() -> Tally {
    let mut tally = Tally::none();
    for width in 1..=TRIPLED {
        for h in Intervals::of(width) {
            for x in Intervals::of(width) {
                for y in Intervals::of(width) {
                    tally = tally.plus(four(words::span, width, h, x, y));
                }
            }
        }
    }
    tally
}

// Intervals drawn at widths 5 to 8, one operation after the other.
fn drawn() -> Tally {
    let mut tally = Tally::none();
    let mut seed = 0x2545_f491_4f6c_dd1d;
    for i in 0..DRAWN {
        let width = 5 + i % 4;
        let top = expected::top(width);
        let second = next(seed);
        let third = next(second);
        let asked = Asked {
            width,
            op: made::op(i / 4),
            h: made::drawn(seed, top),
            x: made::drawn(second, top),
            y: made::drawn(third, top),
        };
        tally = tally.plus(one(words::span, asked));
        seed = next(third);
    }
    tally
}

// Corners at widths 31, 32, 63 and 64: three intervals of h, and those of x and y between seven corners.
fn corners() -> Tally {
    let mut tally = Tally::none();
    for width in made::WIDE {
        for h in made::corner_hs(expected::top(width)) {
            tally = tally.plus(at_corners(width, h));
        }
    }
    tally
}

fn at_corners(width: u64, h: Interval) -> Tally {
    let top = expected::top(width);
    let mut tally = Tally::none();
    for k in 0..made::CORNERED * made::CORNERED {
        let x = made::cornered(k, top);
        let y = made::cornered(k / made::CORNERED, top);
        if !reversed(x) && !reversed(y) {
            tally = tally.plus(four(blocks::span, width, h, x, y));
        }
    }
    tally
}

// Four operations, three widths, and six ends of three each.
fn refusals() -> Tally {
    let mut tally = Tally::none();
    for width in made::ODD_WIDTHS {
        for h in (0..made::ODD).map(|k| made::odd(k)) {
            for x in (0..made::ODD).map(|k| made::odd(k)) {
                for y in (0..made::ODD).map(|k| made::odd(k)) {
                    tally = tally.plus(four(words::span, width, h, x, y));
                }
            }
        }
    }
    tally
}

// A difference that is known: the prefix bound of an AND, 0, in the place of the smallest result, 1.
fn known() -> Tally {
    let x = Interval { low: 1, high: 2 };
    let y = Interval { low: 3, high: 3 };
    let answer = span::join(3, Op::And, made::all(3), x, y);
    let wrong = Asked {
        width: 3,
        op: Op::And,
        h: Interval { low: 0, high: 2 },
        x,
        y,
    };
    Tally::one(answer == wrong.answered())
}
