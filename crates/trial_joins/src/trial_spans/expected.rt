// A join as the paper has it, over spans that are searched.
use span::{Interval, Joined, Op};

/// The top word of a width from 1 to 64, and of another width the largest number.
pub fn top(width: u64) -> u64 {
    match width {
        1..=64 => u64::MAX >> (64 - width),
        _ => u64::MAX,
    }
}

/// The words of both.
pub fn common(i: Interval, j: Interval) -> Interval {
    Interval {
        low: i.low.max(j.low),
        high: i.high.min(j.high),
    }
}

/// Whether it has no word.
pub fn reversed(i: Interval) -> bool {
    i.high < i.low
}

/// A join that is asked for: an operation on words of a width, and an interval for each of them.
#[derive(Clone, Copy)]
pub struct Asked {
    pub width: u64,
    pub op: Op,
    pub h: Interval,
    pub x: Interval,
    pub y: Interval,
}

impl Asked {
    /// What is to be answered, where an operation's span over two intervals is searched so.
    pub fn joined<S: Fn(Op, u64, Interval, Interval) -> Interval>(self, span: S) -> Joined
        requires { S.IsAlwaysCallable span }
    {
        if let Some(number) = self.refusal() {
            return Joined {
                number,
                ..self.answered()
            };
        }
        let cut = self.cut(span);
        if cut.intervals().iter().any(|i| reversed(*i)) {
            return Joined {
                empty: true,
                ..self.answered()
            };
        }
        cut.answered()
    }

    /// These very intervals as an answer.
    pub fn answered(self) -> Joined {
        Joined {
            number: 0,
            empty: false,
            h: self.h,
            x: self.x,
            y: self.y,
        }
    }

    // A NOT has no y: one word stands there.
    fn second(self) -> Interval {
        match self.op {
            Op::Not => Interval { low: 0, high: 0 },
            _ => self.y,
        }
    }

    fn intervals(self) -> [Interval; 3] {
        [self.h, self.x, self.second()]
    }

    // The number that it is refused with.
    fn refusal(self) -> Option<u64> {
        let top = top(self.width);
        let intervals = self.intervals();
        if self.width < 1 || 64 < self.width {
            return Some(2);
        }
        if intervals.iter().any(|i| top < i.low || top < i.high) {
            return Some(5);
        }
        if intervals.iter().any(|i| reversed(*i)) {
            return Some(15);
        }
        None
    }

    // h cut by what the operation makes of x and y; x by NOT h or by h XOR y; and y by h XOR x.
    fn cut<S: Fn(Op, u64, Interval, Interval) -> Interval>(self, span: S) -> Asked
        requires { S.IsAlwaysCallable span }
    {
        let Asked { op, h, x, y, .. } = self;
        let top = top(self.width);
        let second = self.second();
        let (by_h, by_x) = match op {
            Op::Not => (span(op, top, h, second), y),
            Op::And | Op::Or => (x, y),
            Op::Xor => (span(op, top, h, y), span(op, top, h, x)),
        };
        Asked {
            h: common(h, span(op, top, x, second)),
            x: common(x, by_h),
            y: common(y, by_x),
            ..self
        }
    }
}
