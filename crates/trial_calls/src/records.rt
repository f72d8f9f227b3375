// Sheets, and records made of them that are none, or another: with one number raised, or with the other edition.
use crate::sheets::{added, case2, gone_back, marked, opened_in, other};
use rule::Rule;
use sheet::Sheet;
use trial::trial_direct::rules::rule;
use word::Edition;

// Where the numbers of the rules end, those of the marks, and the eight others.
const RULES: usize = 4 * Rule::LIMIT;

const MARKS: usize = RULES + Sheet::MARKS;

pub const NUMBERS: usize = MARKS + 8;

/// What a number is raised by: to the next one, so far that a count of rules or of marks passes its limit, and so that it is the same in
/// its low half.
pub const AMOUNTS: [u64; 3] = [1, Rule::LIMIT as u64, 0x1_0000_0000];

// The top word of 63 bits, the widest that has numbers above it.
const TOP: u64 = 0x7fff_ffff_ffff_ffff;

/// A sheet with two rules and a mark. The second rule, signed, has every word.
pub fn stands(width: u64, top: u64, edition: Edition) -> Sheet {
    let first = added(opened_in(width, edition), case2());
    marked(added(first, rule(4, 0, top / 2, 0)))
}

/// The sheet with two stretches that wait.
pub fn waited(sheet: Sheet, top: u64) -> Sheet {
    let one = added(marked(sheet), rule(8, 1, top, top));
    gone_back(gone_back(marked(one)))
}

/// No sheet keeps a verdict 3.
pub fn hurt(sheet: Sheet) -> Sheet {
    let mut no_sheet = sheet;
    no_sheet.kept.verdict = 3;
    no_sheet
}

/// The record with the other edition.
pub fn turned(sheet: Sheet) -> Sheet {
    Sheet {
        edition: other(sheet.edition),
        ..sheet
    }
}

/// The sheets that are no sheet once any number is raised: one of the old edition and two of the new, without and with something that
/// waits, and the blank one.
pub fn sound() -> [Sheet; 7] {
    let old = stands(4, 15, Edition::Old);
    let new = stands(4, 15, Edition::New);
    let wide = stands(63, TOP, Edition::New);
    [
        old,
        waited(old, 15),
        new,
        waited(new, 15),
        wide,
        waited(wide, TOP),
        Sheet::blank(),
    ]
}

/// Sheets that one edition has: the blank one is of the old, and one of more than 32 bits is of the new.
pub fn of_one_edition() -> [Sheet; 5] {
    let wide = stands(63, TOP, Edition::New);
    [
        Sheet::blank(),
        wide,
        waited(wide, TOP),
        opened_in(33, Edition::New),
        opened_in(64, Edition::New),
    ]
}

/// The record with one number raised.
pub fn raised(sheet: Sheet, at: usize, by: u64) -> Sheet {
    let mut record = sheet;
    if at < RULES {
        raise_of_rule(&mut record.rules[at / 4], at % 4, by);
    } else if at < MARKS {
        raise_size(&mut record.marks[at - RULES], by);
    } else {
        raise_other(&mut record, at - MARKS, by);
    }
    record
}

fn raise(number: &mut u64, by: u64) {
    *number = number.wrapping_add(by);
}

fn raise_size(size: &mut usize, by: u64) {
    *size = size.wrapping_add(by as usize);
}

fn raise_of_rule(rule: &mut Rule, at: usize, by: u64) {
    match at {
        0 => raise(&mut rule.form, by),
        1 => raise(&mut rule.sense, by),
        2 => raise(&mut rule.c1, by),
        _ => raise(&mut rule.c2, by),
    }
}

// One of the eight numbers that are neither a rule's nor a mark.
fn raise_other(sheet: &mut Sheet, at: usize, by: u64) {
    match at {
        0 => raise(&mut sheet.width, by),
        1 => raise_size(&mut sheet.count, by),
        2 => raise_size(&mut sheet.marked, by),
        3 => raise_size(&mut sheet.given, by),
        4 => raise_size(&mut sheet.waiting, by),
        5 => raise(&mut sheet.kept.verdict, by),
        6 => raise(&mut sheet.kept.smallest, by),
        _ => raise(&mut sheet.kept.largest, by),
    }
}
