// Tries the calls on a sheet: case 13 of the paper's sheets worked by hand, in both editions, with the refusals of marks, of steps and of
// the blank sheet.
//
// The counts. case13: on the blank sheet and on one of each edition, 2 widths that are refused in each and the 32 that the new edition
// has alone; 5 on the blank sheet; and on sheets of each edition 5 rules and 4 of form 7, 5 at the limit of rules, 2 askings, and a mark, a
// step back and a step forward for each mark that a sheet takes and one more of each. known has wrong expectations, 5.
#![tactic(auto)]

use page::Opening;
use rule::Rule;
use sheet::{Answer, Sheet};
use trial::trial_direct::direct::UNTOUCHED;
use trial::trial_direct::rules::{NO_FORM, rule};
use trial::trial_tally::{Tally, total};
use trial_calls::answers::{accepted, ask_refused, kept, looks, refused, replied};
use trial_calls::sheets::{
    added, case2, filled, gone_back, gone_forward, marked, opened, opened_in,
};
use word::{Edition, Width};

fn main(rt: HostRuntime) {
    let _ = println!(rt; "case13 {}", all());
    let _ = println!(rt; "known {}", known());
}

fn all() -> Tally {
    let blank = Sheet::blank();
    widths(blank)
        .plus(on_blank(blank))
        .plus(in_edition(Edition::Old))
        .plus(in_edition(Edition::New))
}

fn in_edition(edition: Edition) -> Tally {
    let sheet = opened_in(4, edition);
    widths(sheet)
        .plus(rules(sheet))
        .plus(bit_rules(sheet))
        .plus(one_too_many(sheet))
        .plus(asking(sheet))
        .plus(marks(sheet))
}

fn opens(sheet: Sheet, width: u64, edition: Edition) -> Answer {
    sheet.open(Opening { width, edition })
}

// A refused opening keeps the old sheet with its edition.
fn widths(sheet: Sheet) -> Tally {
    looks(&[
        refused(opens(sheet, 0, Edition::Old), 2, sheet),
        refused(opens(sheet, 33, Edition::Old), 2, sheet),
        refused(opens(sheet, 0, Edition::New), 2, sheet),
        refused(opens(sheet, 65, Edition::New), 2, sheet),
    ])
    .plus(new_widths(sheet))
}

// The widths that the new edition has alone.
fn new_widths(sheet: Sheet) -> Tally {
    let widths = 33..=Width::LIMIT;
    total(widths.map(|width| Tally::one(accepted(opens(sheet, width, Edition::New)))))
}

fn adds(sheet: Sheet, rule: Rule) -> Answer {
    sheet.add(sheet.edition, rule)
}

// At width 4.
fn rules(sheet: Sheet) -> Tally {
    looks(&[
        refused(adds(sheet, rule(NO_FORM, 0, 0, 0)), 3, sheet),
        refused(adds(sheet, rule(1, 0, 16, 0)), 5, sheet),
        refused(adds(sheet, rule(1, 0, 0, 16)), 5, sheet),
        accepted(adds(sheet, rule(1, 0, 15, 0))),
        accepted(adds(sheet, rule(1, 0, 0, 15))),
    ])
}

// A bit of form 7 outside its mask, the lowest, a middle one (case 9) and the top bit; and a value that is its mask.
fn bit_rules(sheet: Sheet) -> Tally {
    looks(&[
        refused(adds(sheet, rule(7, 0, 6, 1)), 5, sheet),
        refused(adds(sheet, rule(7, 0, 1, 2)), 5, sheet),
        refused(adds(sheet, rule(7, 0, 7, 8)), 5, sheet),
        accepted(adds(sheet, rule(7, 0, 6, 6))),
    ])
}

// The last rule that a sheet takes stands after a mark, so that a step back strikes it alone, and a step forward brings it back.
fn one_too_many(opened: Sheet) -> Tally {
    let more = case2();
    let sheet = marked(filled(opened, Rule::LIMIT - 1));
    let full = added(sheet, more);
    let back = gone_back(full);
    looks(&[
        accepted(adds(sheet, more)),
        refused(adds(full, more), 6, full),
        accepted(full.back()),
        accepted(adds(back, more)),
        refused(adds(gone_forward(back), more), 6, full),
    ])
}

// One rule, with 14 numbers lent and with 15.
fn asking(opened: Sheet) -> Tally {
    let sheet = added(opened, case2());
    let mut out = [UNTOUCHED; 15];
    let reply = sheet.ask(&mut out);
    looks(&[ask_refused(sheet, 9), replied(reply, 0, kept(2, 11, 14), 0)])
}

// As many marks as a sheet takes are accepted, and none after them; then a step back for each; and then a step forward for each, when the
// sheet is the one from before.
fn marks(opened: Sheet) -> Tally {
    let (marking, full) = all_accepted(opened, |sheet| sheet.mark());
    let (striking, struck) = all_accepted(full, |sheet| sheet.back());
    let (returning, returned) = all_accepted(struck, |sheet| sheet.forward());
    looks(&[
        refused(full.mark(), 7, full),
        refused(struck.back(), 8, struck),
        refused(returned.forward(), 12, full),
    ])
    .plus(marking)
    .plus(striking)
    .plus(returning)
}

// A call for each mark that a sheet takes, one after another, and the sheet that they leave.
fn all_accepted<F: Fn(Sheet) -> Answer>(start: Sheet, call: F) -> (Tally, Sheet)
    requires { F.IsAlwaysCallable call }
{
    let mut tally = Tally::none();
    let mut sheet = start;
    for _ in 0..Sheet::MARKS {
        let answer = call(sheet);
        tally = tally.plus(Tally::one(accepted(answer)));
        sheet = answer.sheet;
    }
    (tally, sheet)
}

fn on_blank(blank: Sheet) -> Tally {
    looks(&[
        refused(blank.add(Edition::Old, case2()), 1, blank),
        refused(blank.mark(), 1, blank),
        refused(blank.back(), 1, blank),
        refused(blank.forward(), 1, blank),
        ask_refused(blank, 1),
    ])
}

// Wrong expectations: no mark is in force, and the number is 8; 14 numbers are too few for one rule, and the number is 9; a refused
// opening changes the edition.
fn known() -> Tally {
    let sheet = opened(4);
    let more = added(sheet, case2());
    let other = opened_in(4, Edition::New);
    looks(&[
        refused(sheet.back(), 7, sheet),
        refused(sheet.back(), 8, more),
        ask_refused(more, 6),
        accepted(sheet.back()),
        refused(opens(sheet, 65, Edition::New), 2, other),
    ])
}
