// Lists of rules for the programs that try the batch call, and the calls one by one.

use crate::sheets::case2;
use batch::Batch;
use page::Opening;
use rule::Rule;
use sheet::Sheet;
use trial::trial_direct::rules::rule;

// The top word of 32 bits.
const TOP: u64 = 0xffff_ffff;

/// The calls one by one, up to the first refusal, all in one edition.
pub fn calls(opening: Opening, rules: &[Rule], out: &mut [u64]) -> Batch {
    let opened = Sheet::blank().open(opening);
    if opened.number != 0 {
        return stopped(opened.number, rules.len());
    }
    let mut sheet = opened.sheet;
    for (place, rule) in rules.iter().enumerate() {
        let answer = sheet.add(opening.edition, *rule);
        if answer.number != 0 {
            return stopped(answer.number, place);
        }
        sheet = answer.sheet;
    }
    Batch {
        reply: sheet.ask(out),
        place: rules.len(),
    }
}

fn stopped(number: u64, place: usize) -> Batch {
    Batch {
        reply: sheet::refusal(number),
        place,
    }
}

/// One rule, again and again. At width 4 the words from 11 to 14 fit.
pub fn alike() -> [Rule; Batch::MOST] {
    [case2(); Batch::MOST]
}

/// Rules of which each fails on one part of the wheel, so that no word of 32 bits fits as many as a sheet takes. The chain
/// has a link for each part.
pub fn parts() -> [Rule; Batch::MOST] {
    parts_of(TOP)
}

/// The same on the wheel of another top word. There are as many parts as a sheet takes rules.
pub fn parts_of(top: u64) -> [Rule; Batch::MOST] {
    let last = top / Rule::LIMIT as u64;
    let mut rules = alike();
    let mut c1: u64 = 0;
    for part in rules.iter_mut() {
        c1 = c1.wrapping_add(last + 1) & top;
        *part = rule(3, 1, c1, last);
    }
    rules
}

/// The list with another rule at a place.
pub fn with(rules: [Rule; Batch::MOST], place: usize, rule: Rule) -> [Rule; Batch::MOST] {
    let mut changed = rules;
    if place < Batch::MOST {
        changed[place] = rule;
    }
    changed
}
