// Tries the count and the listing on sheets of the widths 1 to 8 in both editions, against a walk over all words.
//
// The counts, of which each is even, as every sheet is tried in either edition. rules: each rule that a sheet takes by itself, at the widths
// 1 to 5: of w bits forms 1, 2, 3 and 8 have 4^w pairs of constants and two senses, forms 4, 5 and 6 2^w constants and two senses, and form 7
// 3^w masks with a value, 8 * 4^w + 6 * 2^w + 3^w in all: 47 + 161 + 587 + 2225 + 8627 = 11647. drawn has as many sheets as its loop
// makes, of up to 200 rules. Each sheet is counted once, and listed from 0 up to the end in pieces of 0, 1, 2, 3, 7 and 256 words: m words
// in pieces of r are m / r + 1 listings, or m / r where r parts them evenly and the top word is one of them, and a piece of 0 is one. But for
// the rules of 4 and 5 bits it is listed from every word in a piece of 2, too. known: the words of case 2, right once and wrong in five
// ways, of which a count tells three and a listing four.
#![tactic(auto)]

ghost use Rattle.std.specs.Prelude.{◌≤◌, length};
ghost use Rattle.rule.specs.Meaning.{RULES};
ghost use Rattle.trial.specs.trial_direct.Trial.{Narrow};

use arrayvec::ArrayVec;
use rule::Rule;
use trial::trial_direct::direct::{Row, Table};
use trial::trial_direct::{direct, draw, rules};
use trial_calls::sheets::{added, case2, opened_in};
use trial_counts::pieces;
use trial_counts::pieces::{SIZES, WORDS, Words};
use trial_counts::seen::Seen;
use trial_counts::total::Total;
use trial_sheets::drawn as draws;
use trial_sheets::trial_editions::asked;
use trial_sheets::trial_wide::{corners, sheets};
use word::{Edition, Width};

// The widest words that every rule is tried on.
const WIDEST: u64 = 5;

// How many sheets are drawn.
const SHEETS: u64 = 200;

// The rooms that a listing from every word has.
const PAIR: usize = 2;

// The bits from which on a rule by itself is not listed from every word, so that the run stays short.
const WIDE: u64 = 4;

fn main(rt: HostRuntime) {
    all_rules().tell(&rt, "rules");
    drawn().tell(&rt, "drawn");
    known().tell(&rt, "known");
}

// Every rule by itself.
fn all_rules() -> Seen {
    let mut seen = Seen::none();
    for bits in 1..=WIDEST {
        seen = seen.plus(of_width(Width { bits }));
    }
    seen
}

fn of_width(width: Width) -> Seen
    requires { Narrow width.bits }
{
    let mut seen = Seen::none();
    let mut table = direct::BLANK;
    let each = width.bits < WIDE;
    for i in 0..rules::count(width) {
        let rule = rules::numbered(i, width);
        if corners::is_taken(rule) {
            seen = seen.plus(on_sheet(&[rule], width, each, &mut table));
        }
    }
    seen
}

// Sheets of any number of rules.
fn drawn() -> Seen {
    let mut seen = Seen::none();
    let mut table = direct::BLANK;
    for i in 1..=SHEETS {
        seen = seen.plus(drawn_sheet(draw::spread(0, i), &mut table));
    }
    seen
}

fn drawn_sheet(s: u64, table: &mut Table) -> Seen {
    let width = Width { bits: 1 + s % 8 };
    let n = draws::count(s >> 8);
    let rules = sheets::all_taken(draws::rules(s, n, width));
    on_sheet(&rules[..n], width, true, table)
}

// The rules, counted and listed in both editions, from every word where that is asked for.
fn on_sheet(rules: &[Rule], width: Width, each: bool, table: &mut Table) -> Seen
    requires narrow { Narrow width.bits }
    requires n_bound { length rules.now ≤ RULES }
{
    if !rules::all_lawful(rules, width) {
        return Seen::none();
    }
    direct::fill(rules, width, table);
    let size = direct::size(width);
    let list = walked(&table[..rules.len()], size as usize);
    let words = Words {
        list: list.as_slice(),
        top: size - 1,
    };
    let new = in_edition(Edition::New, width.bits, rules, words, each);
    new.plus(in_edition(Edition::Old, width.bits, rules, words, each))
}

// All words that fit, one after another.
fn walked(rows: &[Row], size: usize) -> ArrayVec<u64, WORDS>
    requires { size ≤ 256 }
{
    let mut list = ArrayVec::new();
    let mut p = 0;
    for _ in 0..WORDS {
        let x = direct::up(rows, size, p);
        if size <= x {
            break;
        }
        let _ = list.try_push(x as u64);
        p = x + 1;
    }
    list
}

// A sheet that is refused is not the one that is expected, and differs.
fn in_edition(edition: Edition, bits: u64, rules: &[Rule], words: Words, each: bool) -> Seen {
    let sheet = asked::filled(edition, bits, rules).sheet;
    let total = Total::of(words.list.len() as u64);
    let mut seen = Seen::counted(total, total.is_counted(sheet));
    for room in SIZES {
        seen = seen.plus(pieces::alike(sheet, words, room));
    }
    seen = seen.plus(pieces::alike(sheet, words, WORDS));
    if each {
        return seen.plus(pieces::from_each(sheet, words, PAIR));
    }
    seen
}

// The words of case 2, from 11 to 14, and what is wrong about them: the last word is left out, the top word is one too many, a word stands
// twice, a word does not fit, the quotient is 1.
fn known() -> Seen {
    of_case2(&[11, 12, 13, 14], 0)
        .plus(of_case2(&[11, 12, 13], 0))
        .plus(of_case2(&[11, 12, 13, 14, 15], 0))
        .plus(of_case2(&[11, 12, 12, 14], 0))
        .plus(of_case2(&[10, 12, 13, 14], 0))
        .plus(of_case2(&[11, 12, 13, 14], 1))
}

fn of_case2(list: &[u64], quotient: u64) -> Seen {
    let total = Total {
        quotient,
        remainder: list.len() as u64,
    };
    let sheet = added(opened_in(4, Edition::New), case2());
    Seen::counted(total, total.is_counted(sheet)).plus(pieces::alike(
        sheet,
        Words { list, top: 15 },
        WORDS,
    ))
}
