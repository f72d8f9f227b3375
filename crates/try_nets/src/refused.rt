// Nets that are refused, with all that is wrong after what they are refused for.
use net::{Ended, Net};
use span::{Interval, Op};
use trial::trial_tally::Tally;
use trial_joins::trial_nets::{made, plain};

// Five ways to be refused with 16, and one with none of them.
const WAYS: u64 = 6;

/// Each way with eight choices of what else is wrong.
pub fn over_ways() -> Tally {
    let mut tally = Tally::none();
    for way in 0..WAYS {
        for also in 0..8 {
            tally = tally.plus(one(way, Wrong::of(also)));
        }
    }
    tally
}

// What else is wrong with a net: a width of 0 or 65, a bound above the top word, and bounds in the wrong order.
#[derive(Clone, Copy)]
struct Wrong {
    pub width: bool,
    pub bound: bool,
    pub reversed: bool,
}

impl Wrong {
    // A bit for each.
    fn of(bits: u64) -> Wrong {
        Wrong {
            width: bits & 1 != 0,
            bound: bits & 2 != 0,
            reversed: bits & 4 != 0,
        }
    }
}

fn one(way: u64, also: Wrong) -> Tally {
    let net = net(way, also);
    let expected = match refusal(way, also) {
        Some(number) => plain::answer(Ended::Refused(number), 0, net.words),
        None => plain::answer(Ended::Steady, 2, made::changed()),
    };
    Tally::one(net.run(9) == expected)
}

// The number that it is refused with. The ways 0 to 4 are refused with 16, whatever else is wrong.
fn refusal(way: u64, also: Wrong) -> Option<u64> {
    if way < 5 {
        return Some(16);
    }
    if also.width {
        return Some(2);
    }
    if also.bound {
        return Some(5);
    }
    if also.reversed { Some(15) } else { None }
}

fn net(way: u64, also: Wrong) -> Net {
    let mut net = placed(way);
    if also.width {
        net.width = if way % 2 == 1 { 0 } else { 65 };
    }
    if also.bound {
        net.words[2] = Interval { low: 0, high: 4 };
    }
    if also.reversed {
        net.words[1] = Interval { low: 2, high: 1 };
    }
    net
}

// 17 words, 33 joins, or a join whose h, x or y isn't there; or none of these.
fn placed(way: u64) -> Net {
    let quiet = made::odd_at(1, 0, made::join(Op::Not, 3, 0, 99));
    match way {
        0 => Net { count: 17, ..quiet },
        1 => Net {
            joined: 33,
            ..quiet
        },
        2 => made::odd_at(2, 1, made::join(Op::And, 4, 0, 0)),
        3 => made::odd_at(2, 1, made::join(Op::Or, 0, 4, 0)),
        4 => made::odd_at(2, 1, made::join(Op::Xor, 0, 0, 4)),
        _ => quiet,
    }
}
