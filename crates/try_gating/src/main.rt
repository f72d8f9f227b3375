// Tries setting gates on sheets: what is kept then, that a gate is its four rules added, which number is given, how many places it takes,
// and what waits.
//
// The counts, in each edition. kept: the numbers by hand of 6 gates on a sheet just opened. added: 3 kinds against the adds, on it and on
// one with a rule. order: 17 before each of 1, 13, 14, 6; 1 before 13 and 14; 13 by itself at widths 31 and 4, and before 14 and 6; 14 by
// itself in each kind and in a span twice, and before 6. room: with 196, 197, 199 and 200 rules in force. waits: an accepted gate
// empties what waits, refused ones of 14 and of 6 leave it. known has 2 wrong expectations.
#![tactic(auto)]

mod made;

use gate::Gate;
use rule::Rule;
use sheet::{Answer, Sheet};
use trial::trial_tally::Tally;
use trial_calls::answers::{accepted, kept, looks, refused};
use trial_calls::records::hurt;
use trial_calls::sheets::{added, case2, filled, gone_back, marked, opened_in};
use word::Edition;

fn main(rt: HostRuntime) {
    let _ = println!(rt; "kept {}", in_both(|edition| as_kept(edition)));
    let _ = println!(rt; "added {}", in_both(|edition| as_added(edition)));
    let _ = println!(rt; "order {}", in_both(|edition| order(edition)));
    let _ = println!(rt; "room {}", in_both(|edition| room(edition)));
    let _ = println!(rt; "waits {}", in_both(|edition| waits(edition)));
    let _ = println!(rt; "known {}", known());
}

fn in_both<F: Fn(Edition) -> Tally>(tried: F) -> Tally
    requires { F.IsAlwaysCallable tried }
{
    tried(Edition::Old).plus(tried(Edition::New))
}

// Whether a gate is accepted and leaves these numbers.
fn keeps(sheet: Sheet, gate: Gate, verdict: u64, smallest: u64, largest: u64) -> bool {
    let answer = gating::set(sheet, gate);
    accepted(answer) && answer.sheet.kept == kept(verdict, smallest, largest)
}

fn as_kept(edition: Edition) -> Tally {
    let sheet = opened_in(32, edition);
    looks(&[
        keeps(sheet, Gate::AtLeast(1.0), 2, 0x3f80_0000, 0x7f80_0000),
        keeps(sheet, Gate::AtMost(1.0), 2, 0, 0xff80_0000),
        keeps(sheet, made::within(1.0, 2.0), 2, 0x3f80_0000, 0x4000_0000),
        keeps(sheet, made::within(2.0, 2.0), 1, 0x4000_0000, 0x4000_0000),
        keeps(sheet, made::within(0.0, -0.0), 2, 0, 0x8000_0000),
        keeps(sheet, made::within(2.0, 1.0), 0, 0, 0),
    ])
}

// A gate against its rules, added one by one.
fn as_added(edition: Edition) -> Tally {
    let sheet = opened_in(32, edition);
    added_on(sheet).plus(added_on(added(sheet, case2())))
}

fn added_on(sheet: Sheet) -> Tally {
    looks(&[
        same_as(sheet, Gate::AtLeast(-1.0)),
        same_as(sheet, Gate::AtMost(100.0)),
        same_as(sheet, made::within(-0.5, 0.5)),
    ])
}

fn same_as(sheet: Sheet, gate: Gate) -> bool {
    let answer = gating::set(sheet, gate);
    accepted(answer) && answer.sheet == made::adds(sheet, gate)
}

fn refuses(sheet: Sheet, gate: Gate, number: u64) -> bool {
    refused(gating::set(sheet, gate), number, sheet)
}

// Which number is given.
fn order(edition: Edition) -> Tally {
    let one = Gate::AtLeast(1.0);
    let none = Gate::AtLeast(made::no_number());
    let sheet = opened_in(32, edition);
    let narrow = opened_in(4, edition);
    let full = filled(sheet, Rule::LIMIT);
    let narrow_full = filled(narrow, Rule::LIMIT);
    looks(&[
        refuses(hurt(Sheet::blank()), one, 17),
        refuses(hurt(narrow), one, 17),
        refuses(hurt(sheet), none, 17),
        refuses(hurt(full), one, 17),
        refuses(Sheet::blank(), one, 1),
        refuses(Sheet::blank(), none, 1),
        refuses(opened_in(31, edition), one, 13),
        refuses(narrow, one, 13),
        refuses(narrow, none, 13),
        refuses(narrow_full, one, 13),
        refuses(full, none, 14),
    ])
    .plus(limits(sheet))
}

fn limits(sheet: Sheet) -> Tally {
    let none = made::no_number();
    looks(&[
        refuses(sheet, Gate::AtLeast(none), 14),
        refuses(sheet, Gate::AtMost(none), 14),
        refuses(sheet, made::within(none, 1.0), 14),
        refuses(sheet, made::within(1.0, none), 14),
    ])
}

// How many rules leave room.
fn room(edition: Edition) -> Tally {
    let gate = Gate::AtMost(1.0);
    let most = filled(opened_in(32, edition), 196);
    looks(&[
        same_as(most, gate),
        refuses(filled(most, 1), gate, 6),
        refuses(filled(most, 3), gate, 6),
        refuses(filled(most, 4), gate, 6),
    ])
}

// A sheet on which a stretch waits.
fn waits(edition: Edition) -> Tally {
    let opened = opened_in(32, edition);
    let sheet = gone_back(added(marked(opened), case2()));
    let full = gone_back(marked(filled(opened, 197)));
    looks(&[
        forward_after(gating::set(sheet, Gate::AtLeast(1.0)), 12),
        forward_after(gating::set(sheet, Gate::AtLeast(made::no_number())), 0),
        forward_after(gating::set(full, Gate::AtLeast(1.0)), 0),
    ])
}

fn forward_after(answer: Answer, number: u64) -> bool {
    answer.sheet.forward().number == number
}

fn known() -> Tally {
    let sheet = opened_in(32, Edition::Old);
    looks(&[
        keeps(sheet, Gate::AtLeast(0.0), 2, 0, 0x7f80_0000),
        refuses(sheet, made::within(2.0, 1.0), 5),
    ])
}
