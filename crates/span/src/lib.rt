// Joins of words: h is NOT x, or x AND y, OR y, XOR y, at one width, each word with an interval, and what each interval says
// of the others.
#![tactic(auto)]

pub mod extent;
pub mod interval;
pub mod refusal;
pub mod steps;

ghost use Rattle.std.specs.Prelude.{◌≡◌};
ghost use Rattle.word.specs.Word.{IsWidth};
ghost use Rattle.span.specs.interval.Interval.{Words};
ghost use Rattle.span.specs.interval.Op.{second};
ghost use Rattle.span.specs.Join.{any_hollow, as_given, joined, new_x, new_y};

use crate::extent::span;
pub use crate::interval::{Interval, Op};
pub use crate::refusal::{Refusal, is_width};
use word::Width;

/// What a join answers: 0 or the number of a refusal, whether a cut is empty, and the three intervals.
// A number and a flag stay in it, since that is the answer that callers are promised: each place has its value in every case.
#[derive(Clone, Copy, Debug, PartialEq, Eq)]
pub struct Joined {
    pub number: u64,
    pub empty: bool,
    pub h: Interval,
    pub x: Interval,
    pub y: Interval,
}

/// Cuts the intervals by what each says of the others. Every cut reads the intervals as given.
pub fn join(width: u64, op: Op, h: Interval, x: Interval, y: Interval) -> Joined
    ensures { result ≡ joined width op h x y }
{
    let bits = match refusal::accepted(width, h, x, op.second(y)) {
        Ok(bits) => bits,
        Err(refusal) => return as_given(refusal.number(), false, h, x, y),
    };
    let new_h = h.cut(span(bits, op, x, y));
    let new_x = cut_x(bits, op, h, x, y);
    let new_y = cut_y(bits, op, h, x, y);
    if any_hollow(new_h, new_x, op.second(new_y)) {
        return as_given(0, true, h, x, y);
    }
    Joined {
        number: 0,
        empty: false,
        h: new_h,
        x: new_x,
        y: new_y,
    }
}

#[tactic(auto, unfolding(crate::specs::Join::as_given))]
fn as_given(number: u64, empty: bool, h: Interval, x: Interval, y: Interval) -> Joined
    ensures { result ≡ as_given number empty h x y }
{
    Joined {
        number,
        empty,
        h,
        x,
        y,
    }
}

/// Whether one of them has its low end above its high end.
#[tactic(auto, unfolding(crate::specs::Join::any_hollow))]
pub fn any_hollow(h: Interval, x: Interval, y: Interval) -> bool
    ensures { result ≡ any_hollow h x y }
{
    h.hollow() || x.hollow() || y.hollow()
}

// The interval of x, cut where the inverse operation cuts it.
#[tactic(auto, using(crate::proofs::SearchCuts::wanted), unfolding(crate::specs::Join::new_x))]
fn cut_x(width: Width, op: Op, h: Interval, x: Interval, y: Interval) -> Interval
    requires width { IsWidth width.bits }
    requires words { Words width.bits h × Words width.bits (second op y) }
    ensures { result ≡ new_x width.bits op h x y }
{
    if op.inverted() < 1 {
        return x;
    }
    x.cut(span(width, op, h, y))
}

// The interval of y so.
#[tactic(auto, using(crate::proofs::SearchCuts::wanted), unfolding(crate::specs::Join::new_y))]
fn cut_y(width: Width, op: Op, h: Interval, x: Interval, y: Interval) -> Interval
    requires width { IsWidth width.bits }
    requires words { Words width.bits h × Words width.bits x }
    ensures { result ≡ new_y width.bits op h x y }
{
    if op.inverted() < 2 {
        return y;
    }
    y.cut(span(width, op, h, x))
}
