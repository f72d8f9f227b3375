// Nets that end at each place of the round.
use net::{Answer, Ended, Net};
use span::Op;
use trial::trial_tally::Tally;
use trial_joins::trial_nets::{made, plain};

/// How a net is made to end.
#[derive(Clone, Copy)]
pub enum Way {
    Empty,
    Steady,
}

/// Nets of 1 to 32 joins, ended at each place of them.
pub fn over_joins(way: Way) -> Tally {
    let mut tally = Tally::none();
    for joined in 1..=Net::JOINS {
        for p in 0..joined {
            tally = tally.plus(three(way, joined, p));
        }
    }
    tally
}

/// The net of so many joins in which the one at place p finds an empty cut, or changes a word.
pub fn made(way: Way, joined: usize, p: usize) -> Net {
    let odd = match way {
        Way::Empty => made::join(Op::Not, 0, 2, 99),
        Way::Steady => made::join(Op::Not, 3, 0, 99),
    };
    made::odd_at(joined, p, odd)
}

// After how many steps it ends, where enough is paid for: at the step of that place, or a round later.
fn last(way: Way, joined: usize, p: usize) -> u64 {
    let step = (p as u64).wrapping_add(1);
    match way {
        Way::Empty => step,
        Way::Steady => step.wrapping_add(joined as u64),
    }
}

// What it answers then.
fn ended(way: Way, steps: u64) -> Answer {
    match way {
        Way::Empty => plain::answer(Ended::Empty, steps, made::unchanged()),
        Way::Steady => plain::answer(Ended::Steady, steps, made::changed()),
    }
}

// What it answers where too little is paid for.
fn spent(way: Way, steps: u64) -> Answer {
    let words = match way {
        Way::Empty => made::unchanged(),
        Way::Steady => made::changed(),
    };
    plain::answer(Ended::Spent, steps, words)
}

// With just enough to pay, with more than can be used, and with one step too few.
fn three(way: Way, joined: usize, p: usize) -> Tally {
    let net = made(way, joined, p);
    let steps = last(way, joined, p);
    let fewer = steps.wrapping_sub(1);
    Tally::one(net.run(steps) == ended(way, steps))
        .plus(Tally::one(net.run(u64::MAX) == ended(way, steps)))
        .plus(Tally::one(net.run(fewer) == spent(way, fewer)))
}
