// Tries the check of chains: what asking writes for sheets as try_chains tries them, in both editions, each chain changed in six ways at
// every place, and lists of drawn numbers, all against a check that goes word by word.
//
// The counts, of which each is even, as every list is tried on a sheet of either edition. sheets: single and paper as in
// try_chains, pairs at width 1 alone and fewer that are drawn, those whose rules are accepted, by whether no word fits them.
// written: the chain of each that no word fits, and all get yes. raised, lowered, cut: each number of these chains raised or lowered
// by one, and the list cut off before it. left out, doubled, moved: each link left out, doubled, and moved to the end. other: each
// chain on the sheet without its last rule. no sheet: each chain on its sheet with another verdict kept, and all get no. fitting: a
// drawn list on each sheet that a word fits, and all get no. known: the lists of case 8, whose chain has two links, with the wrong
// answers expected, in each edition: 1 written, 6 each raised, lowered and cut, 2 each left out, doubled and moved, 1 other and 1 on no
// sheet.
#![tactic(auto)]

ghost use Rattle.trial.specs.trial_direct.Trial.{Narrow};

use rule::Rule;
use trial::trial_direct::cases::{CASE8, CASES};
use trial::trial_direct::{cases, draw, rules};
use trial::trial_tally::Tally;
use trial_chains::trial_checks::Trial;
use trial_sheets::drawn;
use word::Width;

// The widest words that every rule is tried on by itself.
const WIDEST: u64 = 4;

// How many sheets are drawn.
const SHEETS: u64 = 5000;

fn main(rt: HostRuntime) {
    let mut trial = Trial::new(false);
    single(&mut trial);
    pairs(&mut trial);
    drawn_sheets(&mut trial);
    paper(&mut trial);
    trial.counts.print(&rt);
    let _ = println!(rt; "known {}", known());
}

// Every rule by itself, at the widths 1 to 4.
fn single(trial: &mut Trial) {
    for bits in 1..WIDEST + 1 {
        over_firsts(trial, None, Width { bits }, draw::SPREAD);
    }
}

// Every two rules of one bit.
fn pairs(trial: &mut Trial) {
    let width = Width { bits: 1 };
    for i in 0..rules::count(width) {
        let seed = draw::next(draw::SPREAD.wrapping_add(i));
        over_firsts(trial, Some(rules::numbered(i, width)), width, seed);
    }
}

// The sheets of one rule or two, with any rule first and the second as given.
fn over_firsts(trial: &mut Trial, second: Option<Rule>, width: Width, from: u64)
    requires { Narrow width.bits }
{
    for i in 0..rules::count(width) {
        let first = rules::numbered(i, width);
        let seed = draw::next(from.wrapping_add(i));
        match second {
            None => trial.sheet(&[first], width, seed),
            Some(second) => trial.sheet(&[first, second], width, seed),
        }
    }
}

// Sheets drawn by a fixed rule, of the widths 1 to 8.
fn drawn_sheets(trial: &mut Trial) {
    for i in 1..SHEETS + 1 {
        let s = draw::spread(0, i);
        let width = Width { bits: 1 + s % 8 };
        let n = drawn::count(s >> 8);
        trial.sheet(&drawn::rules(s, n, width)[..n], width, s);
    }
}

// The paper's sheets worked by hand, where the words are few enough to go through.
fn paper(trial: &mut Trial) {
    for case in &CASES {
        let bits = case.bits;
        if 1 <= bits && bits <= 8 {
            trial.sheet(case.rules, Width { bits }, draw::SPREAD);
        }
    }
}

// Case 8, whose chain has two links, with the wrong answer expected of each list.
fn known() -> Tally {
    let mut trial = Trial::new(true);
    trial.sheet(cases::at(CASE8).rules, Width { bits: 4 }, draw::SPREAD);
    trial.counts.joined()
}
