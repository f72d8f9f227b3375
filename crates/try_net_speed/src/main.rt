// Nets of 16 words and 32 joins at 64 bits, run one after the other, so that the time can be taken: 400 runs of 25 steps. A round of 32
// joins that changes nothing would end a run, so none is longer.
#![tactic(auto)]

use net::{Ended, Join, Net};
use span::{Interval, Op};
use trial_joins::trial_spans::made;

const RUNS: u64 = 400;

const PAID: u64 = 25;

fn main() {
    io::print_decimal(1, steps(RUNS));
    io::write_all(1, b" steps\n");
}

// The steps of all runs, each of which is to spend what is paid for.
fn steps(runs: u64) -> u64 {
    let mut all: u64 = 0;
    let mut seed: u64 = 0x9e37_79b9_7f4a_7c15;
    for i in 0..runs {
        seed = further(seed);
        let answer = full(seed).run(PAID);
        let ended = answer.ended;
        if let Ended::Spent = ended {
            all = std::num::wrapping_add_u64(all, answer.steps);
        }
    }
    all
}

// The number drawn after s (xorshift: 13 up, 7 down, 17 up).
fn further(s: u64) -> u64 {
    let a = s ^ s << 13;
    let b = a ^ a >> 7;
    b ^ b << 17
}

fn full(seed: u64) -> Net {
    Net {
        width: 64,
        words: intervals(seed, further(seed)),
        count: Net::WORDS,
        joins: joins(),
        joined: Net::JOINS,
    }
}

// Each join has the words of the two places before its own.
fn joins() -> [Join; Net::JOINS] {
    let first = Join {
        op: Op::Xor,
        h: 2,
        x: 1,
        y: 0,
    };
    let mut joins = [first; Net::JOINS];
    for k in 0..Net::JOINS {
        let h = 2 + k % 14;
        let x = 1 + k % 14;
        let y = k % 14;
        let op = made::op(h as u64);
        joins[k] = Join { op, h, x, y };
    }
    joins
}

// Up to 15 words on each side of words that satisfy all joins: no cut is empty, and a span goes down nearly all bits.
fn intervals(one: u64, other: u64) -> [Interval; Net::WORDS] {
    let mut words = [Interval {
        low: 0,
        high: u64::MAX,
    }; Net::WORDS];
    let mut before = one;
    let mut word = other;
    for k in 0..Net::WORDS {
        words[k] = around(before);
        let next = result(made::op(2 + k as u64), word, before);
        before = word;
        word = next;
    }
    words
}

fn around(word: u64) -> Interval {
    Interval {
        low: std::num::wrapping_sub_u64(word, word >> 60),
        high: std::num::wrapping_add_u64(word, (word ^ u64::MAX) >> 60),
    }
}

fn result(op: Op, x: u64, y: u64) -> u64 {
    match op {
        Op::Not => x ^ u64::MAX,
        Op::And => x & y,
        Op::Or => x | y,
        Op::Xor => x ^ y,
    }
}
