// Tries the verdict and the chain on many sheets, against a plain search over all words, and on the paper's values. A record with the
// rules and with what is expected of them is asked: where other words fit it is no sheet, and asking is refused.
//
// The counts: at a width of N = 2^w words there are 14 N^2 rules outside form 7, and of form 7, which has one sense, 3^w that a sheet
// takes, since each bit of the mask is free, 0 or 1. So single has 14 (4 + 16 + 64 + 256) + 3 + 9 + 27 + 81 = 4880 sheets, and pair
// has (56 + 3)^2 + (224 + 9)^2 = 57770. (Forms 4, 5 and 6 do not use c2, so that their rules come N times each.) drawn has as many as
// its loop makes, 20000. paper has the cases 1 to 12, of which 1 and 3 stand twice, and case 3 negated at width 32: 15, and by the
// paper 4 none, 3 one and 8 many. known has six wrong expectations: of the verdict, its two words, the number of links, a number of a
// link, and one after the links.
#![tactic(auto)]

ghost use Rattle.std.specs.Prelude.{◌≤◌, length};
ghost use Rattle.trial.specs.trial_direct.Trial.{Narrow};

use rule::Rule;
use trial::trial_direct::cases::{CASE8, CASES, Case};
use trial::trial_direct::direct::{Table, UNTOUCHED};
use trial::trial_direct::{cases, direct, draw, rules};
use trial::trial_tally::{Count, Split, Verdicts};
use trial_sheets::expected::{Expected, NUMBERS};
use trial_sheets::trial_editions::asked;
use trial_sheets::{drawn, expected, walk};
use word::{Edition, Width};

// The widest words that every rule is tried on by itself, and every two.
const SINGLE: u64 = 4;

const PAIRED: u64 = 2;

// How many sheets are drawn.
const SHEETS: u64 = 20000;

fn main(rt: HostRuntime) {
    let _ = println!(rt; "single {}", Verdicts(single()));
    let _ = println!(rt; "pair {}", Verdicts(pairs()));
    let _ = println!(rt; "drawn {}", Verdicts(drawn_sheets()));
    let _ = println!(rt; "paper {}", Verdicts(paper()));
    let _ = println!(rt; "known {}", known().joined());
}

// Every rule by itself, at the widths 1 to 4.
fn single() -> Split {
    (1..SINGLE + 1)
        .map(|bits| over_firsts(None, Width { bits }))
        .sum()
}

// Every two rules, at the widths 1 and 2.
fn pairs() -> Split {
    (1..PAIRED + 1)
        .map(|bits| over_seconds(Width { bits }))
        .sum()
}

// Every two rules of a width.
fn over_seconds(width: Width) -> Split
    requires { Narrow width.bits }
{
    (0..rules::count(width))
        .map(|i| over_firsts(Some(rules::numbered(i, width)), width))
        .sum()
}

// The sheets of one rule or two, with any rule first and the second as given.
fn over_firsts(second: Option<Rule>, width: Width) -> Split
    requires { Narrow width.bits }
{
    let mut table = direct::BLANK;
    let mut split = Split::none();
    for i in 0..rules::count(width) {
        split = split.plus(with_second(rules::numbered(i, width), second, width, &mut table));
    }
    split
}

fn with_second(first: Rule, second: Option<Rule>, width: Width, table: &mut Table) -> Split
    requires { Narrow width.bits }
{
    match second {
        None => sheet(&[first], width, table),
        Some(second) => sheet(&[first, second], width, table),
    }
}

// Sheets drawn by a fixed rule, of the widths 1 to 8.
fn drawn_sheets() -> Split {
    let mut table = direct::BLANK;
    (1..SHEETS + 1)
        .map(|i| drawn_sheet(draw::spread(0, i), &mut table))
        .sum()
}

fn drawn_sheet(s: u64, table: &mut Table) -> Split {
    let width = Width { bits: 1 + s % 8 };
    let n = drawn::count(s >> 8);
    sheet(&drawn::rules(s, n, width)[..n], width, table)
}

// The paper's sheets worked by hand.
fn paper() -> Split {
    CASES.iter().map(|case| of_case(*case, |_, _| ())).sum()
}

// Case 8, whose chain has two links, with each of six wrong expectations.
fn known() -> Split {
    let case = cases::at(CASE8);
    [
        of_case(case, |expected, _| expected.verdict ^= 1),
        of_case(case, |expected, _| expected.smallest ^= 1),
        of_case(case, |expected, _| expected.largest ^= 1),
        of_case(case, |expected, _| expected.links ^= 1),
        // a number of a link, and one after the links
        of_case(case, |_, buffer| buffer[1] ^= 1),
        of_case(case, |_, buffer| buffer[NUMBERS - 1] = 0),
    ]
    .into_iter()
    .sum()
}

// The desk's answer compared with the paper's, of which something is changed.
fn of_case<F: FnOnce(&mut Expected, &mut [u64; NUMBERS])>(case: Case, change: F) -> Split
    requires { F.IsAlwaysCallable change }
{
    let mut buffer = [UNTOUCHED; NUMBERS];
    let mut expected = expected::of_case(case, &mut buffer);
    change(&mut expected, &mut buffer);
    compared(case.rules, Width { bits: case.bits }, expected, &buffer)
}

// The desk's answer to a sheet compared with the direct one, or nothing where a rule is not lawful or a sheet refuses it.
fn sheet(rules: &[Rule], width: Width, table: &mut Table) -> Split
    requires { Narrow width.bits }
{
    if !rules::all_lawful(rules, width) || rules.iter().any(|rule| rules::strays(*rule)) {
        return Split::none();
    }
    let mut buffer = [UNTOUCHED; NUMBERS];
    direct::fill(rules, width, table);
    let rows = &table[..rules.len().min(Rule::LIMIT)];
    let walked = walk::walked(rows, direct::size(width) as usize, &mut buffer);
    compared(rules, width, walked, &buffer)
}

// The answer of a record that keeps what is expected compared with that, in every number of the buffer and in the bound on the links too.
fn compared(rules: &[Rule], width: Width, expected: Expected, buffer: &[u64; NUMBERS]) -> Split {
    let mut numbers = [UNTOUCHED; NUMBERS];
    let sheet = asked::record(Edition::Old, width.bits, rules, expected);
    let answer = asked::asked(sheet, &mut numbers);
    let same = answer == expected && numbers == *buffer && answer.links <= 4 * rules.len() + 1;
    Split::one(expected.verdict, same)
}
