// The words that meet all form 7 rules, found bit by bit: they have the rules' bits, and any of the bits that no rule looks at. Where two
// rules clash, the word made of their bits meets not all, and none does.
use crate::trial_wheel::meaning;
use crate::trial_wheel::wheel::Wheel;
use rule::Rule;
use word::Width;

/// The most rules of a sheet that is looked at whole.
pub const FEW: usize = 6;

// The form 7 rules in one: the bits of their values, and those that none looks at.
#[derive(Clone, Copy)]
struct Join {
    least: u64,
    free: u64,
}

fn joined(rules: &[Rule], wheel: Wheel) -> Join {
    let mut join = Join {
        least: 0,
        free: wheel.top,
    };
    for rule in rules {
        if rule.form == 7 {
            join.least |= rule.c2;
            join.free &= !rule.c1;
        }
    }
    join
}

// Whether x meets all form 7 rules.
fn meets_all(rules: &[Rule], wheel: Wheel, x: u64) -> bool {
    rules
        .iter()
        .all(|rule| rule.form != 7 || meaning::meets(wheel, *rule, x))
}

/// The smallest word at or above p: from the largest, each free bit is cleared, the highest first, where p is not passed.
pub fn next(rules: &[Rule], wheel: Wheel, p: u64) -> Option<u64> {
    let join = joined(rules, wheel);
    let mut x = join.least | join.free;
    if x < p || !meets_all(rules, wheel, x) {
        return None;
    }
    for k in (0..Width::LIMIT).rev() {
        let cleared = x ^ join.free & 1 << k;
        if p <= cleared {
            x = cleared;
        }
    }
    Some(x)
}

/// The largest word at or below p: from the smallest, each free bit is set, the highest first, where p is not passed.
pub fn prev(rules: &[Rule], wheel: Wheel, p: u64) -> Option<u64> {
    let join = joined(rules, wheel);
    let mut x = join.least;
    if p < x || !meets_all(rules, wheel, x) {
        return None;
    }
    for k in (0..Width::LIMIT).rev() {
        let set = x | join.free & 1 << k;
        if set <= p {
            x = set;
        }
    }
    Some(x)
}
