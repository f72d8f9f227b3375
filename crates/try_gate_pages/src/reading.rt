// Drawn gates on readings, against the reading by integers.
use crate::draw;
use crate::draw::Limits;
use trial::trial_direct::draw::{SPREAD, next};
use trial::trial_direct::rules::rule;
use trial::trial_gates::direct;
use trial::trial_gates::direct::Kind;
use trial::trial_tally::{Tally, total};
use trial_calls::sheets::{added, opened_in};
use trial_calls::trial_draws::draw::further;
use word::Edition;

const DRAWN: u64 = 1000;

const WORDS: u64 = 24;

/// The gates that are drawn, each looked at so, with what it was drawn from.
pub fn over<F: Fn(u64, Limits) -> Tally>(looked_at: F) -> Tally
    requires { F.IsAlwaysCallable looked_at }
{
    let mut tally = Tally::none();
    let mut seed = SPREAD;
    for _ in 0..DRAWN {
        seed = further(seed);
        tally = tally.plus(looked_at(seed, draw::some_limits(seed)));
    }
    tally
}

/// Whether the gate is turned into rules just where its limits are numbers.
pub fn turned(limits: Limits) -> Tally {
    Tally::one(limits.rules().is_some() == limits.are_numbers())
}

/// The words that fit the gate, or those that do not.
pub fn on_words(limits: Limits, seed: u64, fit: bool) -> Tally {
    if !limits.are_numbers() {
        return Tally::none();
    }
    let mut tally = Tally::none();
    for k in 0..WORDS {
        let x = word(limits, seed, k);
        if limits.met(x) == fit {
            tally = tally.plus(Tally::one(holds(limits, x) == fit));
        }
    }
    tally
}

// A limit, with its own sign or the other, or a word before or after it; or a drawn word.
fn word(limits: Limits, seed: u64, k: u64) -> u64 {
    let low = u64::from(limits.low);
    let high = u64::from(limits.high);
    let near = match k % 4 {
        0 => low,
        1 => high,
        2 => low ^ 0x8000_0000,
        _ => high ^ 0x8000_0000,
    };
    if k < 12 {
        return near.wrapping_add(0xffff_ffff + k / 4 % 3) % 0x1_0000_0000;
    }
    next(next(seed ^ k)) >> 32
}

// Whether x meets the gate's rules.
fn holds(limits: Limits, x: u64) -> bool {
    match limits.gate().rules() {
        Ok(four) => direct::all_hold(four, x),
        Err(_) => false,
    }
}

/// The sheet with the gate and the rule that a word is x has one word or none.
pub fn asked(limits: Limits, seed: u64) -> Tally {
    if !limits.are_numbers() {
        return Tally::none();
    }
    let x = word(limits, seed, seed / 0x1000 % WORDS);
    let answer = gating::set(opened_in(32, Edition::New), limits.gate());
    let sheet = added(answer.sheet, rule(6, 0, x, 0));
    Tally::one(sheet.kept.verdict == u64::from(limits.met(x)))
}

/// At least 1 taken for at most 1, on the reading 2.
pub fn known() -> Tally {
    let one = 0x3f80_0000;
    let least = Limits {
        kind: Kind::Least,
        low: one,
        high: one,
    };
    let most = Limits {
        kind: Kind::Most,
        ..least
    };
    Tally::one(holds(least, 0x4000_0000) == most.met(0x4000_0000))
}
