// Tries what waits after steps back: what comes back of it, what empties it, and what leaves it.
//
// The counts. waiting: in each edition 9 of stretches in turn, 4 that empty them, and 10 + 10 + 3 that leave them. known has wrong
// expectations, 3.
#![tactic(auto)]

use page::Opening;
use sheet::{Answer, Sheet};
use trial::trial_direct::rules::rule;
use trial::trial_tally::Tally;
use trial_calls::answers::{accepted, looks, refused};
use trial_calls::sheets::{
    added, case2, gone_back, gone_forward, marked, opened, opened_in, other,
};
use word::Edition;

fn main(rt: HostRuntime) {
    let _ = println!(rt; "waiting {}", all(Edition::Old).plus(all(Edition::New)));
    let _ = println!(rt; "known {}", known());
}

fn all(edition: Edition) -> Tally {
    let none = opened_in(4, edition);
    let one = added(marked(none), case2());
    let two = added(marked(one), rule(4, 0, 7, 0));
    let last = gone_back(two);
    let both = gone_back(last);
    in_turn(none, last, two)
        .plus(emptied(last))
        .plus(left(last, two))
        .plus(left(both, last))
        .plus(no_step_back(both, last))
}

// Of two stretches the one most recently taken back comes first, and each step gives the very sheet from before a step back.
fn in_turn(none: Sheet, last: Sheet, two: Sheet) -> Tally {
    let both = gone_back(last);
    looks(&[
        none_waits(none),
        none_waits(two),
        refused(gone_forward(last).forward(), 12, two),
    ])
    .plus(leaves(last.forward(), two))
    .plus(leaves(both.forward(), last))
    .plus(leaves(gone_forward(both).forward(), two))
}

// An accepted add, mark or opening, in either edition, empties what waits.
fn emptied(waits: Sheet) -> Tally {
    looks(&[
        none_waits(added(waits, case2())),
        none_waits(marked(waits)),
        none_waits(reopened(waits, 4, Edition::Old)),
        none_waits(reopened(waits, 4, Edition::New)),
    ])
}

// The sheet that is left by opening where another is open.
fn reopened(sheet: Sheet, width: u64, edition: Edition) -> Sheet {
    sheet.open(Opening { width, edition }).sheet
}

fn none_waits(sheet: Sheet) -> bool {
    refused(sheet.forward(), 12, sheet)
}

// Refused adds, one of them in the other edition, and a refused opening leave what waits, which comes back after them.
fn left(waits: Sheet, before: Sheet) -> Tally {
    let other = other(waits.edition);
    let foreign = waits.add(other, case2()).sheet;
    leaves(added(waits, rule(9, 0, 0, 0)).forward(), before)
        .plus(leaves(added(waits, rule(1, 2, 0, 0)).forward(), before))
        .plus(leaves(added(waits, rule(1, 0, 16, 0)).forward(), before))
        .plus(leaves(foreign.forward(), before))
        .plus(leaves(reopened(waits, 65, other).forward(), before))
}

// So does a step back where no mark is left.
fn no_step_back(waits: Sheet, before: Sheet) -> Tally {
    Tally::one(refused(waits.back(), 8, waits)).plus(leaves(gone_back(waits).forward(), before))
}

// A call accepted, and the sheet that it leaves.
fn leaves(answer: Answer, sheet: Sheet) -> Tally {
    looks(&[accepted(answer), answer.sheet == sheet])
}

// Wrong expectations: both stretches come back at once; nothing waits after a step back; something waits after an add.
fn known() -> Tally {
    let one = added(marked(opened(4)), case2());
    let two = marked(one);
    let last = gone_back(two);
    looks(&[
        gone_forward(gone_back(last)) == two,
        none_waits(last),
        accepted(added(last, case2()).forward()),
    ])
}
