// Sheets of few rules at any width, asked in each edition that has the width, against the walk from turn to turn.
ghost use Rattle.std.specs.Prelude.{◌≤◌};
ghost use Rattle.word.specs.Word.{IsWidth};

use rule::Rule;
use trial::trial_direct::draw;
use trial::trial_tally::Count;
use trial::trial_wheel::bit_rules::FEW;
use trial::trial_wheel::wheel::Wheel;
use trial_sheets::expected::NUMBERS;
use trial_sheets::trial_editions::asked;
use trial_sheets::trial_editions::asked::UNTOUCHED;
use trial_sheets::trial_editions::counts::Both;
use trial_sheets::trial_wide::corners::{CORNERS, TILED};
use trial_sheets::trial_wide::{corners, sheets, stretches};

// Of the rules with corners, every so many stand second in a pair. It shares no factor with the numbers of forms, senses and corners.
const STEP: u64 = 11;

const PAIRS: u64 = CORNERS * (CORNERS / STEP + 1);

// How many sheets are drawn, and of how many widths.
const SHEETS: u64 = 4000;

const WIDTHS: u64 = 32;

// Every rule with corners, by itself.
pub fn alone(bits: u64) -> Both
    requires { IsWidth bits }
{
    let wheel = Wheel::of(bits);
    (0..CORNERS)
        .map(|i| compared(bits, wheel, &[corners::cornered(wheel, i)]))
        .sum()
}

// Every rule with corners, and after it each of a part of them.
pub fn paired(bits: u64) -> Both
    requires { IsWidth bits }
{
    let wheel = Wheel::of(bits);
    (0..PAIRS)
        .map(|at| {
            let first = corners::cornered(wheel, at % CORNERS);
            let second = corners::cornered(wheel, at / CORNERS * STEP);
            compared(bits, wheel, &[first, second])
        })
        .sum()
}

// A bit rule, and five rules round the wheel.
pub fn tiled(bits: u64) -> Both
    requires { IsWidth bits }
{
    let wheel = Wheel::of(bits);
    (0..TILED)
        .map(|i| compared(bits, wheel, &corners::tiled(wheel, i)))
        .sum()
}

// Sheets of up to six rules, drawn by a fixed rule, of so many widths from one on.
pub fn drawn(from: u64) -> Both
    requires { (1 ≤ from) × (from ≤ 33) }
{
    (1..SHEETS + 1)
        .map(|i| {
            let s = draw::spread(from, i);
            drawn_sheet(from + s % WIDTHS, s >> 8)
        })
        .sum()
}

fn drawn_sheet(bits: u64, s: u64) -> Both
    requires { IsWidth bits }
{
    let wheel = Wheel::of(bits);
    let rules = sheets::drawn(s, wheel);
    compared(bits, wheel, &rules[..1 + s as usize % FEW])
}

// The desk's answers to a sheet, compared with the one that the walk from turn to turn gives; or nothing where a rule would be refused.
fn compared(bits: u64, wheel: Wheel, rules: &[Rule]) -> Both {
    if !rules.iter().all(|rule| corners::is_taken(*rule)) {
        return Both::none();
    }
    let mut buffer = [UNTOUCHED; NUMBERS];
    let expected = stretches::searched(rules, wheel, &mut buffer);
    asked::in_editions(bits, wheel.top, rules, expected, &buffer)
}
