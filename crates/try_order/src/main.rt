// Tries which number is given where two refusals apply.
//
// The counts. order: 17 before 1 in 5 calls, and 1 before 11 and six others. Then on sheets of each edition: 17 before seven others in
// calls that have room, and before 6 and 7; 11 before 3, 4, 5 by a constant and by a stray bit, and 6, and by itself; and the 3 + 2 + 1
// pairs of 3 to 6, those of 5 with 4 and with 6 by a stray bit too. known has wrong expectations, 2.
#![tactic(auto)]

use rule::Rule;
use sheet::Sheet;
use trial::trial_direct::direct::UNTOUCHED;
use trial::trial_direct::rules::{NO_FORM, rule};
use trial::trial_tally::Tally;
use trial_calls::answers::{ask_refused, kept, looks, refused, replied, untouched};
use trial_calls::records::hurt;
use trial_calls::sheets::{added, all_marks, case2, full, opened_in, other};
use word::Edition;

fn main(rt: HostRuntime) {
    let _ = println!(rt; "order {}", all());
    let _ = println!(rt; "known {}", known());
}

fn all() -> Tally {
    no_blank(hurt(Sheet::blank()))
        .plus(blank(Sheet::blank()))
        .plus(in_edition(Edition::Old))
        .plus(in_edition(Edition::New))
}

// On sheets of an edition, with the frames of both.
fn in_edition(edition: Edition) -> Tally {
    let sheet = opened_in(4, edition);
    let full = full(edition);
    no_sheet(hurt(sheet), hurt(added(sheet, case2())))
        .plus(no_room(hurt(full), hurt(all_marks(edition))))
        .plus(other_edition(sheet, full, other(edition)))
        .plus(form(sheet))
        .plus(sense(sheet))
        .plus(places(full))
}

// Whether an add in the sheet's edition is refused with the number, and one in another.
fn adds(sheet: Sheet, rule: Rule, number: u64) -> bool {
    adds_in(sheet, sheet.edition, rule, number)
}

fn adds_in(sheet: Sheet, edition: Edition, rule: Rule, number: u64) -> bool {
    refused(sheet.add(edition, rule), number, sheet)
}

// 17 before 3, 4, 5, 11, 8, 9 and 12.
fn no_sheet(sheet: Sheet, one_rule: Sheet) -> Tally {
    looks(&[
        adds(sheet, rule(NO_FORM, 0, 0, 0), 17),
        adds(sheet, rule(1, 2, 0, 0), 17),
        adds(sheet, rule(1, 0, 16, 0), 17),
        adds_in(sheet, other(sheet.edition), case2(), 17),
        refused(sheet.back(), 17, sheet),
        refused(sheet.forward(), 17, sheet),
        ask_refused(one_rule, 17),
    ])
}

// 17 before 1.
fn no_blank(sheet: Sheet) -> Tally {
    looks(&[
        adds(sheet, case2(), 17),
        refused(sheet.mark(), 17, sheet),
        refused(sheet.back(), 17, sheet),
        refused(sheet.forward(), 17, sheet),
        ask_refused(sheet, 17),
    ])
}

// 17 before 6 and 7.
fn no_room(full: Sheet, all_marks: Sheet) -> Tally {
    looks(&[
        adds(full, case2(), 17),
        refused(all_marks.mark(), 17, all_marks),
    ])
}

// 1 before 11, 3, 4, 5, 8, 9 and 12. No width has a second constant in form 4, and the blank sheet is of the old edition.
fn blank(blank: Sheet) -> Tally {
    looks(&[
        adds_in(blank, Edition::New, case2(), 1),
        adds(blank, rule(NO_FORM, 0, 0, 0), 1),
        adds(blank, rule(7, 1, 0, 0), 1),
        adds(blank, rule(4, 0, 0, 1), 1),
        refused(blank.back(), 1, blank),
        refused(blank.forward(), 1, blank),
        short(blank),
    ])
}

// Whether asking with two numbers lent is refused with 1. The chain of no rules wants three.
fn short(blank: Sheet) -> bool {
    let mut out = [UNTOUCHED; 2];
    let reply = blank.ask(&mut out);
    replied(reply, 1, kept(0, 0, 0), 0) && untouched(&out, 0)
}

// 11 before 3, 4, 5 and 6, and by itself.
fn other_edition(sheet: Sheet, full: Sheet, edition: Edition) -> Tally {
    looks(&[
        adds_in(sheet, edition, rule(NO_FORM, 0, 0, 0), 11),
        adds_in(sheet, edition, rule(1, 2, 0, 0), 11),
        adds_in(sheet, edition, rule(1, 0, 16, 0), 11),
        adds_in(sheet, edition, rule(7, 0, 6, 1), 11),
        adds_in(full, edition, case2(), 11),
        adds_in(sheet, edition, case2(), 11),
    ])
}

// 3 before 4 and 5.
fn form(sheet: Sheet) -> Tally {
    looks(&[
        adds(sheet, rule(NO_FORM, 2, 0, 0), 3),
        adds(sheet, rule(0, 0, 16, 0), 3),
    ])
}

// 4 before 5.
fn sense(sheet: Sheet) -> Tally {
    looks(&[
        adds(sheet, rule(7, 1, 16, 0), 4),
        adds(sheet, rule(7, 1, 6, 1), 4),
    ])
}

// 3, 4 and 5 before 6.
fn places(full: Sheet) -> Tally {
    looks(&[
        adds(full, rule(NO_FORM, 0, 0, 0), 3),
        adds(full, rule(1, 2, 0, 0), 4),
        adds(full, rule(6, 0, 0, 1), 5),
        adds(full, rule(7, 0, 6, 1), 5),
    ])
}

// Wrong expectations: 3 before 11, and 11 before 1.
fn known() -> Tally {
    let sheet = opened_in(4, Edition::Old);
    looks(&[
        adds_in(sheet, Edition::New, rule(NO_FORM, 0, 0, 0), 3),
        adds_in(Sheet::blank(), Edition::New, case2(), 11),
    ])
}
