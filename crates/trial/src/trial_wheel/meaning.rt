// What the paper says of each form. It shares no code with what is tried.
use crate::trial_wheel::wheel::Wheel;
use rule::Rule;

/// Whether x meets the rule.
pub fn meets(wheel: Wheel, rule: Rule, x: u64) -> bool {
    let holds = written(wheel, rule, x);
    if rule.sense == 1 { !holds } else { holds }
}

// Whether x meets it as written, by the table of forms. A number that is no form forbids nothing.
fn written(wheel: Wheel, rule: Rule, x: u64) -> bool {
    let Rule { form, c1, c2, .. } = rule;
    match form {
        1 => wheel.sum(c1, x) <= wheel.sum(c2, x),
        2 => c1 <= wheel.sum(c2, x),
        3 => wheel.sum(c1, x) <= c2,
        4 => wheel.in_signed_order(x, c1),
        5 => wheel.in_signed_order(c1, x),
        6 => x == c1,
        7 => x & c1 == c2,
        8 => settled(wheel, c1, c2, x),
        _ => true,
    }
}

// "c2 <= (x - c1) and (x - c1) < half"
fn settled(wheel: Wheel, c1: u64, c2: u64, x: u64) -> bool {
    let since = wheel.difference(x, c1);
    c2 <= since && since < wheel.half
}
