// Tries gates against a plain reading of IEEE 754 by integers: all pairs of forty corner patterns as the limits of a span, and each as the
// limit of a gate with one, on each of these patterns and its two neighbours.
//
// The counts (tests/models/try_gates.py). gates: the 1600 spans and 40 gates of each other kind, whether a limit is not a number. fit
// and unfit: of those with numbers, 30 * 30 + 30 + 30 gates on 120 words, the words that meet the gate and those that do not. known has
// two wrong expectations: that the zeros differ, and that a pattern above an infinity's is at least zero.
#![tactic(auto)]

mod made;

use gate::Four;
use made::{CORNERS, WORDS, corner};
use trial::trial_gates::direct;
use trial::trial_gates::direct::Kind;
use trial::trial_gates::made::gate;
use trial::trial_tally::Tally;

// What is looked at: whether the limits are numbers, the words that fit, or those that do not.
#[derive(Clone, Copy)]
enum Look {
    Gates,
    Fit,
    Unfit,
}

fn main(rt: HostRuntime) {
    let _ = println!(rt; "gates {}", over_kinds(Look::Gates));
    let _ = println!(rt; "fit {}", over_kinds(Look::Fit));
    let _ = println!(rt; "unfit {}", over_kinds(Look::Unfit));
    let _ = println!(rt; "known {}", known());
}

fn over_kinds(look: Look) -> Tally {
    singles(Kind::Least, look)
        .plus(singles(Kind::Most, look))
        .plus(spans(look))
}

// Each corner as the limit.
fn singles(kind: Kind, look: Look) -> Tally {
    (0..CORNERS)
        .map(|i| gated(kind, corner(i), corner(i), look))
        .sum()
}

// Each pair of corners as the limits.
fn spans(look: Look) -> Tally {
    (0..CORNERS)
        .flat_map(|i| {
            (0..CORNERS).map(move |j| gated(Kind::Within, corner(i), corner(j), look))
        })
        .sum()
}

// One gate.
fn gated(kind: Kind, low: u32, high: u32, look: Look) -> Tally {
    let number = direct::limits(kind, low, high);
    match (gate(kind, low, high).rules(), look) {
        (Ok(_), Look::Gates) => Tally::one(number),
        (Err(_), Look::Gates) => Tally::one(!number),
        (Ok(four), Look::Fit) => words(kind, low, high, four, true),
        (Ok(four), Look::Unfit) => words(kind, low, high, four, false),
        (Err(_), _) => Tally::none(),
    }
}

// Each corner and its neighbours as the reading, where it fits or does not.
fn words(kind: Kind, low: u32, high: u32, four: Four, fits: bool) -> Tally {
    (0..WORDS)
        .map(|k| made::word(k))
        .filter(|x| direct::meets(kind, low, high, *x) == fits)
        .map(|x| Tally::one(direct::all_hold(four, x) == fits))
        .sum()
}

fn known() -> Tally {
    wrong(0x8000_0000, false).plus(wrong(0x7f80_0001, true))
}

// What is expected, wrongly, of a word and the gate at least zero.
fn wrong(x: u64, expected: bool) -> Tally {
    match gate(Kind::Least, 0, 0).rules() {
        Ok(four) => Tally::one(direct::all_hold(four, x) == expected),
        Err(_) => Tally::none(),
    }
}
