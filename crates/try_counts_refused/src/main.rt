// Tries when a count and a listing are refused: the blank sheet, starts above the top word, and records that are no sheet, with buffers of
// any size.
//
// The counts. A listing is tried from a start with 0, 1 and 7 numbers lent, so 3 looks a start. blank: a count, and three starts: 1 + 9. above:
// the starts after the top word, half a wheel on, and the largest number, and the top word itself, which is taken, at the 63 widths of
// the new edition and the 32 of the old: 12 * 95. no sheet: a count and two starts at each number of a record, of which there are 840, raised
// by each of 3 amounts, on 7 sheets, and at 5 records with the other edition: 7 * (3 * 840 * 7 + 5). known: 6 wrong expectations.
#![tactic(auto)]

ghost use Rattle.std.specs.Prelude.{◌≤◌};

use sheet::Sheet;
use trial::trial_tally::{Tally, total};
use trial_calls::answers::looks;
use trial_calls::records::{AMOUNTS, NUMBERS, of_one_edition, raised, sound, turned};
use trial_calls::sheets::opened_in;
use trial_counts::pieces;
use trial_counts::refused::{count_refused, list_refused};
use word::{Edition, Width};

fn main(rt: HostRuntime) {
    let _ = println!(rt; "blank {}", on_blank());
    let _ = println!(rt;
        "above {}",
        above(Edition::New, 63).plus(above(Edition::Old, 32))
    );
    let _ = println!(rt; "no sheet {}", no_sheets());
    let _ = println!(rt; "known {}", known());
}

// A listing from a start, with 0, 1 and 7 numbers lent.
fn from_start(sheet: Sheet, start: u64, number: u64) -> Tally {
    looks(&[0, 1, 7].map(|room| list_refused(sheet, start, room, number)))
}

// 1 comes before 5: the blank sheet has no top word.
fn on_blank() -> Tally {
    let blank = Sheet::blank();
    Tally::one(count_refused(blank, 1))
        .plus(from_start(blank, 0, 1))
        .plus(from_start(blank, 1, 1))
        .plus(from_start(blank, u64::MAX, 1))
}

// Starts above the top word, on free sheets of the widths up to one.
fn above(edition: Edition, widest: u64) -> Tally
    requires { widest ≤ 63 }
{
    let mut tally = Tally::none();
    for bits in 1..=widest {
        tally = tally.plus(above_top(edition, bits));
    }
    tally
}

fn above_top(edition: Edition, bits: u64) -> Tally
    requires { (1 ≤ bits) × (bits ≤ 63) }
{
    let sheet = opened_in(bits, edition);
    let top = Width { bits }.top();
    let past = top.wrapping_add(1);
    from_start(sheet, past, 5)
        .plus(from_start(sheet, past.wrapping_add(top / 2), 5))
        .plus(from_start(sheet, u64::MAX, 5))
        .plus(at_top(sheet, top))
}

// The top word is a start.
fn at_top(sheet: Sheet, top: u64) -> Tally {
    looks(&[0, 1, 7].map(|room| pieces::only(sheet, top, room)))
}

// 17 comes before 1 and 5: records with one number raised, and those with the other edition.
fn no_sheets() -> Tally {
    let mut tally = total(
        of_one_edition()
            .iter()
            .map(|sheet| no_sheet(turned(*sheet))),
    );
    for sheet in &sound() {
        for by in AMOUNTS {
            for at in 0..NUMBERS {
                tally = tally.plus(no_sheet(raised(*sheet, at, by)));
            }
        }
    }
    tally
}

fn no_sheet(record: Sheet) -> Tally {
    Tally::one(count_refused(record, 17))
        .plus(from_start(record, 0, 17))
        .plus(from_start(record, u64::MAX, 17))
}

// Wrong expectations: a free sheet is not refused, the blank one with 1, and a start above the top word with 5.
fn known() -> Tally {
    let sheet = opened_in(4, Edition::Old);
    let blank = Sheet::blank();
    looks(&[
        count_refused(sheet, 1),
        count_refused(blank, 17),
        list_refused(sheet, 15, 0, 5),
        list_refused(sheet, 16, 1, 1),
        list_refused(blank, 16, 1, 5),
        pieces::only(sheet, 14, 7),
    ])
}
