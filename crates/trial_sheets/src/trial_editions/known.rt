// Wrong expectations, so that a program shows that it tells a difference.
use crate::expected::{Expected, NUMBERS};
use crate::trial_editions::asked;
use crate::trial_editions::asked::UNTOUCHED;
use rule::Rule;
use trial::trial_tally::Tally;
use word::Edition;

// "x is 0" and "x is odd". No word fits them: 0 fails the bits, and all others the first rule.
const RULES: [Rule; 2] = [
    Rule {
        form: 6,
        sense: 0,
        c1: 0,
        c2: 0,
    },
    Rule {
        form: 7,
        sense: 0,
        c1: 1,
        c2: 1,
    },
];

/// What is right of a sheet at width 64, six expectations that are wrong in one number each, and answers of two widths.
pub fn all() -> Tally {
    [
        spoilt(|_, _| ()),
        spoilt(|expected, _| expected.verdict = 1),
        spoilt(|expected, _| expected.smallest = 1),
        spoilt(|expected, _| expected.largest = 1),
        spoilt(|expected, _| expected.links = 1),
        // a number of a link, and one after the links
        spoilt(|_, buffer| buffer[1] = 1),
        spoilt(|_, buffer| buffer[NUMBERS - 1] = 0),
        widths(),
    ]
    .into_iter()
    .sum()
}

// The rules at width 64, and their two links, with what is expected changed.
fn spoilt<F: FnOnce(&mut Expected, &mut [u64; NUMBERS])>(change: F) -> Tally
    requires { F.IsAlwaysCallable change }
{
    let mut expected = Expected::none(2);
    let mut buffer = [UNTOUCHED; NUMBERS];
    let links = [0, 0, 255, 1, u64::MAX, 0];
    for (place, number) in buffer.iter_mut().zip(links) {
        *place = number;
    }
    change(&mut expected, &mut buffer);
    let both = asked::in_editions(64, u64::MAX, &RULES, expected, &buffer);
    both.new.sheets.joined()
}

// A sheet without rules of 32 bits in the old edition, and one of 33 in the new.
fn widths() -> Tally {
    let mut numbers = [UNTOUCHED; NUMBERS];
    let mut buffer = [UNTOUCHED; NUMBERS];
    let old = asked::answered(Edition::Old, 32, &[], &mut numbers);
    let new = asked::answered(Edition::New, 33, &[], &mut buffer);
    Tally::one(old == new && numbers == buffer)
}
