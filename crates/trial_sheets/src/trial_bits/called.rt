// The largest word at or below p that rules leave, as the calls have it: on a sheet with one rule more, by which x is at most p, it is
// the largest that fits.
use crate::expected::NUMBERS;
use crate::trial_editions::asked;
use rule::Rule;
use trial::trial_direct::rules::rule;
use word::{Edition, Width};

/// Whether that is what is expected of the rules. A refusal is not.
pub fn at_most(rules: &[Rule], width: Width, p: u64, expected: Option<u64>) -> bool {
    let filled = asked::filled(Edition::New, width.bits, rules);
    let last = asked::added(filled, Edition::New, rule(3, 0, 0, p));
    let answer = asked::told(last, &mut [0; NUMBERS]);
    match expected {
        Some(x) => (1..=2).contains(&answer.verdict) && answer.largest == x,
        None => answer.verdict == 0,
    }
}
