// The single-precision number nearest to a decimal fraction, ties to even. Digits are divided by a power of ten as by hand, to 24 binary
// places from the first that is not 0: no number is above 64 bits, and nothing is lost.
#![tactic(auto)]

ghost use Rattle.std.specs.Prelude.{◌≡◌, ◌^◌, ◌*◌, ◌≤◌, ◌<◌};
ghost use Rattle.digits.specs.numeral.Numeral.{PLACES};
ghost use Rattle.watts.specs.Watts.{limit_of, nearer, pattern, with_sign};
ghost use Rattle.watts.specs.route.Route.{IsGrain, IsParts};

use digits::numeral::Numeral;

// A power of ten, doubled so often.
#[derive(Clone, Copy)]
struct Grain {
    size: u64,
    doublings: u64,
}

// How many grains digits have that are doubled so often, and what is left.
#[derive(Clone, Copy)]
struct Parts {
    whole: u64,
    rest: u64,
    doublings: u64,
}

// A single-precision number has 24 binary places, the first of which is not 0.
const LEAST: u64 = 0x80_0000;

const PAST: u64 = 0x100_0000;

// The exponent of a pattern that has 24 places before the point, less one.
const POINT: u64 = 149;

// The sign bit.
const SIGN: u64 = 0x8000_0000;

/// The bits of the number nearest to digits / 10^places; of two as near the one whose last bit is 0. None where there are more digits
/// after the point than are read.
#[tactic(auto, using(crate::proofs::SearchNearest::wanted), unfolding(crate::specs::Watts::limit_of))]
pub fn nearest(minus: bool, digits: u64, places: u64) -> Option<u32>
    ensures { result ≡ limit_of minus digits places }
{
    if Numeral::PLACES < places {
        return None;
    }
    Some(with_sign(minus, pattern(digits, places)))
}

// A pattern with a sign.
#[tactic(auto, unfolding(crate::specs::Watts::with_sign))]
fn with_sign(minus: bool, p: u64) -> u32
    requires { p < 2 ^ 31 }
    ensures { result ≡ with_sign minus p }
{
    if minus {
        return (SIGN + p) as u32;
    }
    p as u32
}

// The pattern nearest to digits / 10^places, without a sign.
fn pattern(digits: u64, places: u64) -> u64
    requires { places ≤ PLACES }
    ensures { (result ≡ pattern digits places) × (result < 2 ^ 31) }
{
    if digits == 0 {
        return 0;
    }
    let grain = grain_of(digits, 10_u64.pow(places as u32));
    let parts = parts_of(digits, grain.size);
    let below = (POINT + grain.doublings - parts.doublings) * LEAST + parts.whole;
    nearer(parts.rest, grain.size - parts.rest, below)
}

// A power of ten, doubled until digits have no more than 24 places of it.
fn grain_of(digits: u64, power: u64) -> Grain
    requires { (0 < power) × (power ≤ 10 ^ 9) }
    ensures { IsGrain digits power result }
{
    let mut size = power;
    let mut doublings = 0;
    while PAST <= digits / size {
        size *= 2;
        doublings += 1;
    }
    Grain { size, doublings }
}

// Digits, doubled until they have 24 places of grains.
fn parts_of(digits: u64, size: u64) -> Parts
    requires size_nonzero { (0 < size) × (size ≤ 2 ^ 41) }
    requires digits_nonzero { (0 < digits) × (digits < 2 ^ 24 * size) }
    ensures { IsParts digits size result }
{
    let mut whole = digits / size;
    let mut rest = digits % size;
    let mut doublings = 0;
    while whole < LEAST {
        let twice = rest * 2;
        whole = whole * 2 + twice / size;
        rest = twice % size;
        doublings += 1;
    }
    Parts {
        whole,
        rest,
        doublings,
    }
}

// Of a pattern and the next the nearer, where one is so far under and the other so far over; of two as near the even one.
#[tactic(auto, using(crate::proofs::SearchNearer::wanted), unfolding(crate::specs::Watts::nearer))]
fn nearer(under: u64, over: u64, p: u64) -> u64
    requires { p < 2 ^ 31 }
    ensures { result ≡ nearer under over p }
{
    if under < over {
        return p;
    }
    if over < under {
        return p + 1;
    }
    p + p % 2
}
