// Tries the count and the listing on words of 31 to 64 bits, against a count by the stretches of the rules and the bits of a word.
//
// The counts. alone: forms 1, 2, 3 and 8 have 36 pairs of corners and two senses, forms 4, 5 and 6 six corners and two senses, and
// form 7 the pairs whose second lies in the first: 288 + 36 + 17 = 341 sheets. drawn has as many as its loop makes, of up to six rules. Each is
// counted once, and listed from each of six corners in pieces of 0, 1, 2, 3 and 7 words, in each edition that has the width. known: the
// free sheet of 64 bits, right once and wrong in four counts and three listings.
#![tactic(auto)]

ghost use Rattle.word.specs.Word.{IsWidth};

use rule::Rule;
use trial::trial_direct::draw;
use trial::trial_wheel::bit_rules::FEW;
use trial::trial_wheel::wheel::Wheel;
use trial_calls::sheets::opened_in;
use trial_counts::pieces::Words;
use trial_counts::seen::Seen;
use trial_counts::total::Total;
use trial_counts::{pieces, runs};
use trial_sheets::trial_editions::asked;
use trial_sheets::trial_wide::{corners, sheets};
use word::Edition;

// How many sheets are drawn.
const SHEETS: u64 = 500;

// How many corners a wheel has.
const CORNERS: u64 = 6;

// The widest word of the old edition.
const OLD: u64 = 32;

fn main(rt: HostRuntime) {
    alone(31).tell(&rt, "31 alone");
    alone(32).tell(&rt, "32 alone");
    alone(33).tell(&rt, "33 alone");
    alone(63).tell(&rt, "63 alone");
    alone(64).tell(&rt, "64 alone");
    drawn(31).tell(&rt, "31 drawn");
    drawn(32).tell(&rt, "32 drawn");
    drawn(33).tell(&rt, "33 drawn");
    drawn(63).tell(&rt, "63 drawn");
    drawn(64).tell(&rt, "64 drawn");
    known().tell(&rt, "known");
}

// Every rule with corners, by itself.
fn alone(bits: u64) -> Seen
    requires { IsWidth bits }
{
    let mut seen = Seen::none();
    let wheel = Wheel::of(bits);
    for i in 0..corners::CORNERS {
        let rule = corners::cornered(wheel, i);
        if corners::is_taken(rule) {
            seen = seen.plus(on_sheet(bits, &[rule]));
        }
    }
    seen
}

// Sheets of up to six rules, drawn by a fixed rule.
fn drawn(bits: u64) -> Seen
    requires { IsWidth bits }
{
    let mut seen = Seen::none();
    let wheel = Wheel::of(bits);
    for i in 1..=SHEETS {
        let s = draw::spread(bits, i);
        let rules = sheets::drawn(s, wheel);
        seen = seen.plus(on_sheet(bits, &rules[..1 + s as usize % FEW]));
    }
    seen
}

// The rules, counted and listed in each edition that has the width.
fn on_sheet(bits: u64, rules: &[Rule]) -> Seen
    requires { IsWidth bits }
{
    let new = in_edition(Edition::New, bits, rules);
    if OLD < bits {
        return new;
    }
    new.plus(in_edition(Edition::Old, bits, rules))
}

// A sheet that is refused is not the one that is expected, and differs.
fn in_edition(edition: Edition, bits: u64, rules: &[Rule]) -> Seen
    requires { IsWidth bits }
{
    let wheel = Wheel::of(bits);
    let sheet = asked::filled(edition, bits, rules).sheet;
    let total = runs::total(rules, wheel);
    let mut seen = Seen::counted(total, total.is_counted(sheet));
    for i in 0..CORNERS {
        let start = wheel.corner(i);
        let list = runs::words(rules, wheel, start);
        let words = Words {
            list: list.as_slice(),
            top: wheel.top,
        };
        seen = seen.plus(pieces::mixed(sheet, words, start));
    }
    seen
}

// The free sheet of 64 bits, whose words make 2^32 times 2^32, with four wrong counts; and its last three words, with one that is left out,
// one that stands twice, and one in the place of the last.
fn known() -> Seen {
    let unit = 0x1_0000_0000;
    let last = u64::MAX;
    counted(unit, 0)
        .plus(counted(0, 0))
        .plus(counted(0, unit))
        .plus(counted(unit, 1))
        .plus(counted(unit - 1, unit - 1))
        .plus(listed(&[last - 2, last - 1, last]))
        .plus(listed(&[last - 2, last - 1]))
        .plus(listed(&[last - 2, last - 1, last, last]))
        .plus(listed(&[last - 2, last - 1, last - 1]))
}

fn counted(quotient: u64, remainder: u64) -> Seen {
    let total = Total {
        quotient,
        remainder,
    };
    Seen::counted(total, total.is_counted(opened_in(64, Edition::New)))
}

// What is expected from the last word but two on.
fn listed(list: &[u64]) -> Seen {
    let words = Words {
        list,
        top: u64::MAX,
    };
    pieces::at_once(opened_in(64, Edition::New), words, u64::MAX - 2)
}
