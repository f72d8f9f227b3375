// What is to be answered, by a walk from turn to turn. Within a stretch no rule outside form 7 turns, so that a word there fits just where
// these rules hold and it has the bits.
use crate::expected::{Expected, LINKS, NUMBERS};
use rule::Rule;
use trial::trial_wheel::bit_rules::FEW;
use trial::trial_wheel::turning::{Stretch, TURNS};
use trial::trial_wheel::wheel::Wheel;
use trial::trial_wheel::{bit_rules, meaning, turning};

/// The most stretches of a sheet of few rules.
pub const STRETCHES: u64 = TURNS * FEW as u64 + 1;

// The reason of a link whose words fail a form 7 rule.
const BITS: u64 = 255;

// A link.
#[derive(Clone, Copy)]
struct Link {
    from: u64,
    to: u64,
    reason: u64,
}

/// The verdict and its words, and for none the chain. Puts its links into the buffer.
pub fn searched(rules: &[Rule], wheel: Wheel, out: &mut [u64; NUMBERS]) -> Expected {
    let Some(smallest) = next(rules, wheel, 0) else {
        return Expected::none(chain(rules, wheel, out));
    };
    let Some(largest) = largest(rules, wheel) else {
        return Expected::none(0);
    };
    Expected::some(smallest, largest)
}

/// Whether x meets all rules outside form 7.
pub fn holds(rules: &[Rule], wheel: Wheel, x: u64) -> bool {
    !rules.iter().any(|rule| fails(wheel, *rule, x))
}

// Whether the rule is not of form 7, and x fails it.
fn fails(wheel: Wheel, rule: Rule, x: u64) -> bool {
    rule.form != 7 && !meaning::meets(wheel, rule, x)
}

/// The words around x within which no rule turns.
pub fn around(rules: &[Rule], wheel: Wheel, x: u64) -> Stretch {
    let whole = Stretch {
        from: 0,
        to: wheel.top,
    };
    rules.iter().fold(whole, |within, rule| {
        within.common(turning::around(wheel, *rule, x))
    })
}

// The smallest word from one to another that fits, where no rule turns within.
fn first(rules: &[Rule], wheel: Wheel, from: u64, to: u64) -> Option<u64> {
    if !holds(rules, wheel, from) {
        return None;
    }
    match bit_rules::next(rules, wheel, from) {
        Some(word) if word <= to => Some(word),
        _ => None,
    }
}

// The largest, going down.
fn last(rules: &[Rule], wheel: Wheel, from: u64, to: u64) -> Option<u64> {
    if !holds(rules, wheel, from) {
        return None;
    }
    match bit_rules::prev(rules, wheel, from) {
        Some(word) if to <= word => Some(word),
        _ => None,
    }
}

/// The smallest word at or above p that fits.
pub fn next(rules: &[Rule], wheel: Wheel, p: u64) -> Option<u64> {
    let mut x = p;
    for _ in 0..STRETCHES {
        let end = around(rules, wheel, x).to;
        if let Some(word) = first(rules, wheel, x, end) {
            return Some(word);
        }
        if wheel.top <= end {
            break;
        }
        x = end + 1;
    }
    None
}

// The largest word that fits.
fn largest(rules: &[Rule], wheel: Wheel) -> Option<u64> {
    let mut x = wheel.top;
    for _ in 0..STRETCHES {
        let start = around(rules, wheel, x).from;
        if let Some(word) = last(rules, wheel, x, start) {
            return Some(word);
        }
        if start == 0 {
            break;
        }
        x = start - 1;
    }
    None
}

// "Stop after the link that ends at the top word; else go on with p = q + 1."
fn chain(rules: &[Rule], wheel: Wheel, out: &mut [u64; NUMBERS]) -> usize {
    let (places, _) = out.as_chunks_mut::<3>();
    let mut p = 0;
    for (links, place) in places.iter_mut().enumerate() {
        let link = link_at(rules, wheel, p);
        *place = [link.from, link.to, link.reason];
        if wheel.top <= link.to {
            return links + 1;
        }
        p = link.to + 1;
    }
    LINKS
}

// "Take the rule of furthest reach, the lowest number on a tie." "Otherwise p fails a form 7 rule."
fn link_at(rules: &[Rule], wheel: Wheel, p: u64) -> Link {
    let mut link = Link {
        from: p,
        to: gap(rules, wheel, p),
        reason: BITS,
    };
    for (i, rule) in rules.iter().enumerate() {
        if fails(wheel, *rule, p) {
            let to = turning::reach(wheel, *rule, p);
            if is_further(link, to) {
                link = Link {
                    from: turning::start(wheel, *rule, p),
                    to,
                    reason: i as u64,
                };
            }
        }
    }
    link
}

// Whether a rule's link takes the place of the one so far. The first that is found does.
fn is_further(link: Link, to: u64) -> bool {
    link.reason == BITS || link.to < to
}

// "one less than the smallest word above p that meets all form 7 rules, or the top word if there is none"
fn gap(rules: &[Rule], wheel: Wheel, p: u64) -> u64 {
    if wheel.top <= p {
        return wheel.top;
    }
    match bit_rules::next(rules, wheel, p + 1) {
        Some(word) => word.wrapping_sub(1),
        None => wheel.top,
    }
}
