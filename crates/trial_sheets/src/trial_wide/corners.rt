// Rules whose constants are corners, and sheets whose rules part the words among them, by number.
use crate::trial_wide::sheets;
use rule::Rule;
use trial::trial_direct::rules;
use trial::trial_direct::rules::rule;
use trial::trial_wheel::bit_rules::FEW;
use trial::trial_wheel::wheel::Wheel;

/// How many numbers there are for rules with corners: each form in two senses, with two of six words.
pub const CORNERS: u64 = 36 * rules::KINDS;

/// The rule of a number.
pub fn cornered(wheel: Wheel, i: u64) -> Rule {
    let c1 = wheel.corner(i / rules::KINDS % 6);
    let c2 = wheel.corner(i / rules::KINDS / 6 % 6);
    rule(1 + i % Rule::FORMS, i / Rule::FORMS % 2, c1, c2)
}

/// Whether it is a rule that a sheet takes, and none that another number has too.
pub fn is_taken(rule: Rule) -> bool {
    let near = sheets::taken(rule);
    rule.sense == near.sense && rule.c2 == near.c2
}

/// How many numbers there are for sheets of tiles: six words to start at, a bit that is set or clear, the lowest or the highest, and five
/// tiles of three lengths.
pub const TILED: u64 = 5832;

/// The sheet of a number: a rule that wants a bit, and five rules that forbid a fifth of the words each, all round from a corner on. A
/// fifth may be one word short, and leave a word to the bits, or one word long.
pub fn tiled(wheel: Wheel, i: u64) -> [Rule; FEW] {
    let fifth = wheel.top / 5;
    let rest = wheel.top - 4 * fifth;
    let bit = if i / 6 % 2 == 0 { 1 } else { wheel.half };
    let set = if i / 12 % 2 == 0 { 0 } else { bit };
    let mut rules = [rule(7, 0, bit, set); FEW];
    let mut from = wheel.corner(i % 6);
    let mut lengths = i / 24;
    for (k, place) in rules.iter_mut().enumerate().skip(1) {
        let whole = if k < 5 {
            wheel.difference(fifth, 1)
        } else {
            rest
        };
        let c2 = wheel.difference(wheel.sum(whole, lengths % 3), 1);
        *place = rule(3, 1, wheel.difference(0, from), c2);
        from = wheel.sum(from, fifth);
        lengths /= 3;
    }
    rules
}
