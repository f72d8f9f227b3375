use net::{Ended, Join, Net};
use span::{Interval, Op};

fn of(low: u64, high: u64) -> Interval {
    Interval { low, high }
}

// The status word is at place 0, the mask at 1, the flags at 2, the counter at 3, and the bits in which the two differ at 4.
pub fn flags() -> Interval {
    let mut words = [of(0, 255); Net::WORDS];
    words[1] = of(15, 15);
    words[3] = of(5, 9);
    words[4] = of(0, 0);
    let masked = Join {
        op: Op::And,
        h: 2,
        x: 0,
        y: 1,
    };
    let mut joins = [masked; Net::JOINS];
    joins[1] = Join {
        op: Op::Xor,
        h: 4,
        x: 2,
        y: 3,
    };
    let net = Net {
        width: 8,
        words,
        count: 5,
        joins,
        joined: 2,
    };
    let answer = net.run(100);
    let ended = answer.ended;
    let left = answer.words;
    if let Ended::Steady = ended {
        return left[2];
    }
    of(1, 0)
}
