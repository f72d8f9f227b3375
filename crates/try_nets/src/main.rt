// Compares runs of nets with the plain rule written apart, with a search over all assignments, and with what is known of nets that are
// made to end at a given place, or to be refused. How many there are: widths 1 to 3 with 2 to 4 words are 9 classes, with 50 nets drawn for
// each; each net is run for 0 to 39 steps against the plain rule, and once against the search. Nets of 1 to 32 joins have 528 places of a
// round, with three runs for each and each way to end. There are five ways to be refused with 16, or none, with eight choices of what else is
// wrong.
#![tactic(auto)]

mod places;
mod refused;

use net::{Ended, Net};
use places::Way;
use trial::trial_direct::draw::next;
use trial::trial_tally::Tally;
use trial_joins::trial_nets::{assignments, made, plain};

// The widths 1 to 3, each with 2 to 4 words.
const CLASSES: u32 = 9;

const DRAWN: u64 = 50;

const PAID: u64 = 40;

fn main() {
    over_nets(|_, net| by_rule(net)).print(b"plain rule:");
    over_nets(|class, net| Tally::one(nothing_lost(class, net))).print(b"search:");
    places::over_joins(Way::Empty).print(b"empty at each place:");
    places::over_joins(Way::Steady).print(b"steady at each place:");
    refused::over_ways().print(b"refusals:");
    known().print(b"known:");
}

// The nets that are drawn of each class, compared so.
fn over_nets<F: Fn(u32, &Net) -> Tally>(compared: F) -> Tally
    requires { F.IsAlwaysCallable compared }
{
    let mut tally = Tally::none();
    for class in 0..CLASSES {
        let mut seed = 0x9e37_79b9_7f4a_7c15 ^ u64::from(class);
        for _ in 0..DRAWN {
            seed = next(seed);
            let net = made::drawn(seed, u64::from(1 + class % 3), (2 + class / 3) as usize);
            tally = tally.plus(compared(class, &net));
        }
    }
    tally
}

// A net against the plain rule, for each pay.
fn by_rule(net: &Net) -> Tally {
    let mut tally = Tally::none();
    for pay in 0..PAID {
        tally = tally.plus(Tally::one(net.run(pay) == plain::run(net, pay)));
    }
    tally
}

// How many words a place of the class has.
fn words(class: u32) -> u64 {
    2 << (class % 3)
}

// Whether the search over all assignments finds what was left.
fn nothing_lost(class: u32, net: &Net) -> bool {
    let answer = net.run(PAID);
    let count = words(class).wrapping_pow(2 + class / 3);
    if answer.ended == Ended::Empty {
        return assignments::none(net, words(class), count);
    }
    assignments::all_kept(net, &answer.words, words(class), count)
}

// A difference that is known: spent, where the last step paid for makes the net steady.
fn known() -> Tally {
    let net = places::made(Way::Steady, 1, 0);
    let wrong = plain::answer(Ended::Spent, 2, made::changed());
    Tally::one(net.run(2) == wrong)
}
