// The span of an operation over intervals, down the bits once.

ghost use Rattle.std.specs.Prelude.{◌≡◌};
ghost use Rattle.word.specs.Word.{IsWidth};
ghost use Rattle.span.specs.interval.Interval.{Words, interval};
ghost use Rattle.span.specs.interval.Op.{second};
ghost use Rattle.span.specs.extent.Span.{largest, smallest, span};

use crate::interval::{Interval, Op};
use crate::steps::{And, Bitwise, Or, Step, Turned, Xor};
use word::Width;

/// The results of an operation over two intervals, from the smallest to the largest.
pub fn span(width: Width, op: Op, x: Interval, y: Interval) -> Interval
    requires width { IsWidth width.bits }
    requires words { Words width.bits x × Words width.bits (second op y) }
    ensures { result ≡ span width.bits op x y }
{
    match op {
        Op::Not => x.turned(width.top()),
        Op::And => ends::<And>(width, x, y),
        Op::Or => ends::<Or>(width, x, y),
        Op::Xor => ends::<Xor>(width, x, y),
    }
}

// From the smallest result to the largest: the smallest one of the dual over words turned round, turned back.
#[tactic(auto, using(crate::proofs::extent::SearchEnds::wanted))]
fn ends<B: Turned>(width: Width, x: Interval, y: Interval) -> Interval
    requires width { IsWidth width.bits }
    requires words { Words width.bits x × Words width.bits y }
    ensures { result ≡ interval (smallest width.bits B.value x y) (largest width.bits B.value x y) }
{
    let (u, v) = B::turned(width, x, y);
    Interval {
        low: smallest::<B>(width, x, y),
        high: width.top() - smallest::<B::Dual>(width, u, v),
    }
}

// The smallest result of two words of the intervals.
fn smallest<B: Bitwise>(width: Width, x: Interval, y: Interval) -> u64
    requires width { IsWidth width.bits }
    requires words { Words width.bits x × Words width.bits y }
    ensures { result ≡ smallest width.bits B.value x y }
{
    let mut p = x;
    let mut q = y;
    let mut found = 0;
    for bits in (1..=width.bits).rev() {
        match B::step(Width { bits }, p, q) {
            Step::Settled(v) => return found + v,
            Step::Open(bit, a, b) => {
                found += bit;
                p = a;
                q = b;
            }
        }
    }
    found
}
