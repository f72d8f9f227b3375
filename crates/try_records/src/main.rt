// Tries what a record has to be to be a sheet: a sheet with one number of it raised, which no page of accepted calls gives; and a sheet
// with the other edition, which is none where the old edition has no such width, and else is the sheet that the same calls give there.
//
// The sheets are such that no raised number gives another sheet. The two rules in force are fitted by four words below the top word, and
// each of them by other words once one of its numbers is raised, or is then refused; and the mark is as high as a mark may be. What
// waits is a mark and a rule, and then a mark alone: each number of the rule is as high as it may be, and so are the marks.
//
// The counts. damaged: 6 looks at each number of a record, four a rule, one a mark and 8 others, raised by each of 3 amounts, on 7
// sheets: the blank one, and with something that waits and without one of the old edition and two of the new. edition: 6 looks at each of
// 5 records that are no sheet, and 4 at each of 8 that are one. known: a sheet against itself with each number raised, and with the other
// edition.
#![tactic(auto)]

use sheet::Sheet;
use trial::trial_direct::rules::rule;
use trial::trial_tally::{Tally, total};
use trial_calls::answers::{accepted, ask_refused, looks, refused};
use trial_calls::records::{
    AMOUNTS, NUMBERS, of_one_edition, raised, sound, stands, turned, waited,
};
use trial_calls::sheets::{opened, opened_in, other};
use word::Edition;

fn main(rt: HostRuntime) {
    let _ = println!(rt; "damaged {}", damaged());
    let _ = println!(rt; "edition {}", editions());
    let _ = println!(rt; "known {}", known());
}

// Records with one number raised.
fn damaged() -> Tally {
    let mut tally = Tally::none();
    for sheet in &sound() {
        for by in AMOUNTS {
            for at in 0..NUMBERS {
                tally = tally.plus(no_sheet(raised(*sheet, at, by)));
            }
        }
    }
    tally
}

// Records with the other edition.
fn editions() -> Tally {
    total(
        of_one_edition()
            .iter()
            .map(|sheet| no_sheet(turned(*sheet))),
    )
    .plus(turned_to(Edition::Old))
    .plus(turned_to(Edition::New))
}

// Sheets that are turned to an edition, where the same calls give them too.
fn turned_to(edition: Edition) -> Tally {
    let sheet = stands(4, 15, edition);
    let from = stands(4, 15, other(edition));
    let narrow = turned(opened_in(1, other(edition)));
    let wide = turned(opened_in(32, other(edition)));
    same_page(turned(from), sheet)
        .plus(same_page(turned(waited(from, 15)), waited(sheet, 15)))
        .plus(same_page(narrow, opened_in(1, edition)))
        .plus(same_page(wide, opened_in(32, edition)))
}

// What is said of a record that is a sheet: it is the one that calls give, and its adds are those of the edition that it has.
fn same_page(record: Sheet, sheet: Sheet) -> Tally {
    let more = rule(3, 0, 0, 1);
    looks(&[
        record.is_sheet(),
        record == sheet,
        accepted(record.add(sheet.edition, more)),
        refused(record.add(other(sheet.edition), more), 11, record),
    ])
}

// The sheet compared with itself, with the other edition and with each number raised.
fn known() -> Tally {
    let sheet = opened(4);
    Tally::one(sheet == turned(sheet)).plus(total((0..NUMBERS).map(|at| Tally::one(
        sheet == raised(sheet, at, 1),
    ))))
}

// What is_sheet and each call but an opening say of a record that is no sheet.
fn no_sheet(record: Sheet) -> Tally {
    looks(&[
        !record.is_sheet(),
        refused(record.add(record.edition, rule(3, 0, 0, 1)), 17, record),
        refused(record.mark(), 17, record),
        refused(record.back(), 17, record),
        refused(record.forward(), 17, record),
        ask_refused(record, 17),
    ])
}
