// Sheets of few rules, as they are walked over from turn to turn, and sheets that are drawn.
use rule::Rule;
use trial::trial_direct::draw::next;
use trial::trial_direct::rules;
use trial::trial_direct::rules::rule;
use trial::trial_wheel::bit_rules::FEW;
use trial::trial_wheel::wheel::Wheel;

/// The rule, changed where a sheet would refuse it: c2 is 0 in forms 4, 5 and 6, and in form 7 it has no bit that c1 lacks, and the rule
/// is as written.
pub fn taken(rule: Rule) -> Rule {
    if rule.form != 7 {
        return rules::used(rule);
    }
    Rule {
        sense: 0,
        c2: rule.c1 & rule.c2,
        ..rule
    }
}

/// The rules, changed where a sheet would refuse them.
pub fn all_taken(rules: [Rule; Rule::LIMIT]) -> [Rule; Rule::LIMIT] {
    rules.map(|rule| taken(rule))
}

/// The rules that a seed draws.
pub fn drawn(seed: u64, wheel: Wheel) -> [Rule; FEW] {
    let mut rules = [rule(1, 0, 0, 0); FEW];
    let mut s = seed;
    for place in &mut rules {
        s = next(s);
        let c1 = word(wheel, s >> 8);
        let c2 = word(wheel, s >> 32);
        *place = taken(rule(1 + s % Rule::FORMS, s >> 4 & 1, c1, c2));
    }
    rules
}

// A corner, or one time in four any word.
fn word(wheel: Wheel, s: u64) -> u64 {
    if s & 3 == 0 {
        return next(next(s)) & wheel.top;
    }
    wheel.corner((s >> 2) % 6)
}
