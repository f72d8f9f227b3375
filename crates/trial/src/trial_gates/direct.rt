// What the paper says of a gate and a reading, by integers alone: a pattern's sign and other bits give its rank, and ranks stand in the
// order of the values. It shares no code with what is tried.
use gate::Four;
use rule::Rule;

/// The kinds of a gate.
#[derive(Clone, Copy, Debug, PartialEq, Eq)]
pub enum Kind {
    Least,
    Most,
    Within,
}

impl Kind {
    /// The kinds by number, one after another.
    pub const ALL: [Kind; 3] = [Kind::Least, Kind::Most, Kind::Within];
}

// The sign bit, and the bits of an infinity.
const SIGN: u64 = 0x8000_0000;

const INFINITY: u64 = 0x7f80_0000;

fn is_number(pattern: u64) -> bool {
    pattern % SIGN <= INFINITY
}

// The zeros have one rank. Above it ranks rise with the bits, and below it they fall.
fn rank(pattern: u64) -> u64 {
    if pattern < SIGN {
        SIGN.wrapping_add(pattern)
    } else {
        (2 * SIGN).wrapping_sub(pattern)
    }
}

/// Whether the limits that the kind has are numbers.
pub fn limits(kind: Kind, low: u32, high: u32) -> bool {
    let low = is_number(u64::from(low));
    let high = is_number(u64::from(high));
    match kind {
        Kind::Least => low,
        Kind::Most => high,
        Kind::Within => low && high,
    }
}

/// Whether the reading x meets the gate.
pub fn meets(kind: Kind, low: u32, high: u32, x: u64) -> bool {
    if !is_number(x) {
        return false;
    }
    let above = rank(u64::from(low)) <= rank(x);
    let below = rank(x) <= rank(u64::from(high));
    match kind {
        Kind::Least => above,
        Kind::Most => below,
        Kind::Within => above && below,
    }
}

// Whether x meets a rule, which is of form 3, sense 0: c1 + x <= c2, modulo 2^32.
fn holds(rule: Rule, x: u64) -> bool {
    rule.form == 3 && rule.sense == 0 && rule.c1.wrapping_add(x) % (2 * SIGN) <= rule.c2
}

/// Whether x meets the four rules that a gate is.
pub fn all_hold(four: Four, x: u64) -> bool {
    [four.first, four.second, four.third, four.fourth]
        .iter()
        .all(|rule| holds(*rule, x))
}
