// One bit of the way down to the smallest result. At the highest bit an interval lies below the half, above it or across it, and in
// each combination one choice is forced or the smallest result is at once clear.

ghost use Rattle.std.specs.Prelude.{ℕ};
ghost use Rattle.std.specs.Int.Bits.{bit_and, bit_or, bit_xor};
ghost use Rattle.word.specs.Word.{IsWidth};
ghost use Rattle.span.specs.interval.Interval.{Words};
ghost use Rattle.span.specs.steps.Bitwise.{IsBitwise, and_bitwise, or_bitwise, xor_bitwise};
ghost use Rattle.span.specs.steps.route.Step.{Right, Turns};

use crate::interval::Interval;
use word::Width;

/// An operation that works on each bit of two words by itself.
pub trait Bitwise {
    // What it makes of two words.
    ghost value: { ℕ → ℕ → ℕ };

    /// The step at the highest bit of words of this width.
    fn step(width: Width, x: Interval, y: Interval) -> Step
        requires width { IsWidth width.bits }
        requires words { Words width.bits x × Words width.bits y }
        ensures { Right width.bits value x y result };

    // What each operation must prove.
    ghost bitwise: { IsBitwise value };
}

/// An operation with another one, its dual, which makes of words turned round what this one makes of words, turned round.
pub trait Turned: Bitwise {
    type Dual: Bitwise;

    /// The intervals turned round: the smallest result that the dual makes of these, turned back, is the largest one of x and y.
    fn turned(width: Width, x: Interval, y: Interval) -> (Interval, Interval)
        requires width { IsWidth width.bits }
        requires words { Words width.bits x × Words width.bits y }
        ensures { Turns width.bits Self.value Self.Dual.value x y result.0 result.1 };
}

/// What the highest bit settles: the smallest result itself, or its highest bit, and the parts of the intervals that give it
/// with that bit taken away.
#[derive(Clone, Copy, PartialEq, Eq)]
pub enum Step {
    Settled(u64),
    Open(u64, Interval, Interval),
}

/// x AND y. Its dual is OR.
pub struct And;

impl Bitwise for And {
    ghost value = { bit_and };

    ghost bitwise = { and_bitwise };

    // The smallest AND: where one goes low and the other is across, the bits of the one meet just the bit of the half.
    fn step(width: Width, x: Interval, y: Interval) -> Step {
        let half = width.half();
        if x.low < half {
            if half <= x.high {
                if y.low < half {
                    return Step::Settled(0);
                }
                return Step::Open(0, x.lower(half), y.upper(half));
            }
            if y.low < half {
                if half <= y.high {
                    return Step::Settled(0);
                }
                return Step::Open(0, x.lower(half), y.lower(half));
            }
            return Step::Open(0, x.lower(half), y.upper(half));
        }
        if y.low < half {
            return Step::Open(0, x.upper(half), y.lower(half));
        }
        Step::Open(half, x.upper(half), y.upper(half))
    }
}

impl Turned for And {
    type Dual = Or;

    fn turned(width: Width, x: Interval, y: Interval) -> (Interval, Interval) {
        let top = width.top();
        (x.turned(top), y.turned(top))
    }
}

/// x OR y. Its dual is AND.
pub struct Or;

impl Bitwise for Or {
    ghost value = { bit_or };

    ghost bitwise = { or_bitwise };

    // The smallest OR: where one is above and the other across, the bit of the half adds nothing to the low end of the one.
    fn step(width: Width, x: Interval, y: Interval) -> Step {
        let half = width.half();
        if x.low < half {
            if y.low < half {
                return Step::Open(0, x.lower(half), y.lower(half));
            }
            if half <= x.high {
                return Step::Settled(y.low);
            }
            return Step::Open(half, x.lower(half), y.upper(half));
        }
        if y.low < half {
            if half <= y.high {
                return Step::Settled(x.low);
            }
            return Step::Open(half, x.upper(half), y.lower(half));
        }
        Step::Open(half, x.upper(half), y.upper(half))
    }
}

impl Turned for Or {
    type Dual = And;

    fn turned(width: Width, x: Interval, y: Interval) -> (Interval, Interval) {
        let top = width.top();
        (x.turned(top), y.turned(top))
    }
}

/// x XOR y. It is its own dual, with one word turned.
pub struct Xor;

impl Bitwise for Xor {
    ghost value = { bit_xor };

    ghost bitwise = { xor_bitwise };

    // The smallest XOR: one that is across follows the other, and where both are, the half itself is in both.
    fn step(width: Width, x: Interval, y: Interval) -> Step {
        let half = width.half();
        if x.high < half {
            if half <= y.low {
                return Step::Open(half, x.lower(half), y.upper(half));
            }
            return Step::Open(0, x.lower(half), y.lower(half));
        }
        if half <= x.low {
            if half <= y.high {
                return Step::Open(0, x.upper(half), y.upper(half));
            }
            return Step::Open(half, x.upper(half), y.lower(half));
        }
        if y.high < half {
            return Step::Open(0, x.lower(half), y.lower(half));
        }
        if half <= y.low {
            return Step::Open(0, x.upper(half), y.upper(half));
        }
        Step::Settled(0)
    }
}

impl Turned for Xor {
    type Dual = Xor;

    fn turned(width: Width, x: Interval, y: Interval) -> (Interval, Interval) {
        let top = width.top();
        (x.turned(top), y)
    }
}
