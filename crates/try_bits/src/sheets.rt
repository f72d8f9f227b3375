// The bits that form 7 rules fix, at every constant of the widths 1 to 4, against a plain search for a word that meets them.
ghost use Rattle.std.specs.Prelude.{◌≤◌, length};
ghost use Rattle.trial.specs.trial_direct.Trial.{Narrow};

use rule::Rule;
use rule::bits::Fixed;
use trial::trial_direct::direct::Row;
use trial::trial_direct::{direct, rules};
use trial::trial_tally::Tally;
use trial_sheets::trial_bits::masks::{Sought, Way, found, same};
use trial_sheets::trial_bits::{called, masks};
use word::Width;

// The widest words that every rule is tried on by itself.
const WIDEST: u64 = 4;

// Every form 7 rule by itself and, at widths with few enough of them, with every form 7 rule.
pub fn over_widths(way: Way) -> Tally {
    let single: Tally = (1..WIDEST + 1)
        .map(|bits| single(way, Width { bits }))
        .sum();
    let paired: Tally = (1..WIDEST).map(|bits| paired(way, Width { bits })).sum();
    single.plus(paired)
}

// A number has two words for each rule.
fn single(way: Way, width: Width) -> Tally
    requires { Narrow width.bits }
{
    (0..1 << (2 * width.bits))
        .map(|i| over_words(way, &[bit_rule(i, width)], width))
        .sum()
}

fn paired(way: Way, width: Width) -> Tally
    requires { Narrow width.bits }
{
    (0..1 << (4 * width.bits)).map(|i| two(way, i, width)).sum()
}

fn two(way: Way, i: u64, width: Width) -> Tally
    requires { Narrow width.bits }
{
    let n = direct::size(width);
    let rules = [bit_rule(i, width), bit_rule(i / n / n, width)];
    over_words(way, &rules, width)
}

// The form 7 rule whose constants are the lowest two words of i.
fn bit_rule(i: u64, width: Width) -> Rule
    requires { Narrow width.bits }
{
    let n = direct::size(width);
    rules::rule(7, 0, i % n, i / n % n)
}

// The words found by the bits that the rules fix, which may clash. Looked for downwards, by calls, are only bits of rules that
// a sheet takes. Rules that are not lawful differ.
fn over_words(way: Way, rules: &[Rule], width: Width) -> Tally
    requires { Narrow width.bits }
{
    if !rules::all_lawful(rules, width) {
        return Tally::one(false);
    }
    let mut table = [[0; direct::WORDS]; 2];
    for (rule, place) in rules.iter().zip(&mut table) {
        *place = direct::row(*rule, width);
    }
    let rows = &table[..rules.len().min(2)];
    match way {
        Way::Next => upwards(rules, rows, width),
        Way::Prev if rules.iter().any(|rule| rules::strays(*rule)) => Tally::none(),
        Way::Prev => downwards(rules, rows, width),
    }
}

// From each word the next one that has the bits.
fn upwards(rules: &[Rule], rows: &[Row], width: Width) -> Tally
    requires { Narrow width.bits }
{
    let none = Fixed::Bits { mask: 0, value: 0 };
    let fixed = rules.iter().fold(none, |fixed, rule| fixed.with(*rule));
    let n = direct::size(width);
    (0..n)
        .map(|p| {
            let walked = direct::up(rows, n as usize, p as usize) as u64;
            next(fixed, width, p, below(walked, n))
        })
        .sum()
}

// One answer compared. Where rules clash, no word has their bits.
fn next(fixed: Fixed, width: Width, p: u64, expected: Option<u64>) -> Tally
    requires { Narrow width.bits }
{
    let Fixed::Bits { mask, value } = fixed else {
        return Tally::one(same(None, expected));
    };
    masks::compared(Way::Next, width, Sought { mask, value, p }, expected)
}

// From each word the last one that has them, by calls.
fn downwards(rules: &[Rule], rows: &[Row], width: Width) -> Tally
    requires { Narrow width.bits }
{
    (0..direct::size(width))
        .map(|p| {
            let walked = direct::down(rows, p as usize) as u64;
            Tally::one(called::at_most(rules, width, p, found(walked.checked_sub(1))))
        })
        .sum()
}

// Where a walk up stopped, or none where that is at the end.
fn below(up: u64, end: u64) -> Option<u64> {
    if up < end { Some(up) } else { None }
}
