// Tries the batch call: on lists that hit each refusal it can give, and on lists that are answered, in both editions, against the
// numbers and places that the paper gives and against the calls made one by one.
//
// The counts: for each case the number and the place, the 6 numbers of an answer and those of a buffer for a full sheet. widths:
// 7 openings on 3 lists. editions: 3 openings at each of 32 widths. rules: 7 rules that are refused and one that is not, at 5
// places of 5, in 2 editions. lengths: 3 lengths of 5 lists, lent enough and one number less, and on each one rule more than a
// sheet takes. known: one case in 2 editions, each of its numbers with a wrong expectation.
#![tactic(auto)]

mod case;

use batch::Batch;
use page::Opening;
use rule::Rule;
use trial::trial_direct::rules::{NO_FORM, rule};
use trial::trial_tally::{Tally, total};
use trial_calls::trial_lists::{alike, parts, parts_of, with};
use word::{Edition, Width};

// The places of a list of which each is tried.
const PLACES: usize = 5;

fn main(rt: HostRuntime) {
    let _ = println!(rt; "widths {}", widths());
    let _ = println!(rt; "editions {}", editions());
    let _ = println!(rt; "rules {}", rules(old(4)).plus(rules(new(4))));
    let _ = println!(rt; "lengths {}", lengths());
    let _ = println!(rt; "known {}", case::known(old(4)).plus(case::known(new(4))));
}

fn old(width: u64) -> Opening {
    Opening {
        width,
        edition: Edition::Old,
    }
}

fn new(width: u64) -> Opening {
    Opening {
        width,
        edition: Edition::New,
    }
}

// A refused opening is said at the list's length, whatever the list is.
fn widths() -> Tally {
    opening(old(0))
        .plus(opening(old(33)))
        .plus(opening(old(65)))
        .plus(opening(old(u64::MAX)))
        .plus(opening(new(0)))
        .plus(opening(new(65)))
        .plus(opening(new(u64::MAX)))
}

fn opening(opening: Opening) -> Tally {
    case::lent_enough(opening, &alike(), 0, 2, 0)
        .plus(case::lent_enough(opening, &alike(), 3, 2, 3))
        .plus(case::lent_enough(opening, &parts(), Batch::MOST, 2, Batch::MOST))
}

// Each width that the new edition has alone, and the one below it.
fn editions() -> Tally {
    total((32..Width::LIMIT).map(|below| edition(below, below + 1, u64::MAX >> (63 - below))))
}

// A list whose last rule has the top word of a width: right there in the new edition, refused at once in the old one, and at that
// rule one bit below.
fn edition(below: u64, width: u64, top: u64) -> Tally {
    let rules = with(alike(), 2, rule(1, 0, top, top));
    case::lent_enough(new(width), &rules, 3, 0, 3)
        .plus(case::lent_enough(old(width), &rules, 3, 2, 3))
        .plus(case::lent_enough(new(below), &rules, 3, 5, 2))
}

// At width 4, each place of five.
fn rules(opening: Opening) -> Tally {
    total((0..PLACES).map(|place| each(opening, place)))
}

// A rule that is refused with 3, one with 4, and two with 5; a stray bit of form 7, the lowest, a middle one and the top bit;
// and a value that is its mask.
fn each(opening: Opening, place: usize) -> Tally {
    refused(opening, place, rule(NO_FORM, 0, 0, 0), 3)
        .plus(refused(opening, place, rule(7, 1, 0, 0), 4))
        .plus(refused(opening, place, rule(1, 0, 16, 0), 5))
        .plus(refused(opening, place, rule(6, 0, 0, 1), 5))
        .plus(refused(opening, place, rule(7, 0, 6, 1), 5))
        .plus(refused(opening, place, rule(7, 0, 1, 2), 5))
        .plus(refused(opening, place, rule(7, 0, 7, 8), 5))
        .plus(among(opening, place, rule(7, 0, 6, 6), 0, PLACES))
}

fn refused(opening: Opening, place: usize, rule: Rule, number: u64) -> Tally {
    among(opening, place, rule, number, place)
}

// A rule at a place of a list, with the number and the place that are answered.
fn among(opening: Opening, place: usize, rule: Rule, number: u64, answered: usize) -> Tally {
    let rules = with(alike(), place, rule);
    case::lent_enough(opening, &rules, PLACES, number, answered)
}

// No rule, one, as many as a sheet takes, and one more: "many" at width 4, and of a full sheet at widths 32 and 64 "none".
fn lengths() -> Tally {
    length(old(4), &alike())
        .plus(length(new(4), &alike()))
        .plus(length(old(32), &parts()))
        .plus(length(new(32), &parts()))
        .plus(length(new(64), &parts_of(u64::MAX)))
}

fn length(opening: Opening, rules: &[Rule; Batch::MOST]) -> Tally {
    case::both_lent(opening, rules, 0)
        .plus(case::both_lent(opening, rules, 1))
        .plus(case::both_lent(opening, rules, Rule::LIMIT))
        .plus(case::lent_enough(opening, rules, Batch::MOST, 6, Rule::LIMIT))
}
