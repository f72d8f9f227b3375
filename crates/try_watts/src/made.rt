// What is read, and what it is compared with.
ghost use Rattle.std.specs.Prelude.{◌^◌, ◌<◌, ◌≤◌};

use crate::counts::Seen;
use trial::trial_direct::draw;
use trial::trial_tally::Tally;

// The kinds that are drawn.
#[derive(Clone, Copy)]
pub enum Kind {
    Divided,
    Whole,
    Half,
    Less,
    More,
    Large,
    Any,
}

// Patterns have 24 binary places, the first of which is not 0.
const LEAST: u64 = 0x80_0000;

// The bits read, or none where there are too many digits after the point.
pub fn bits(minus: bool, digits: u64, places: u64) -> Option<u32> {
    watts::nearest(minus, digits, places)
}

// One of a kind, drawn by s.
pub fn one(kind: Kind, s: u64) -> Seen {
    let m = LEAST + s % LEAST;
    let j = 1 + (s >> 24) % 8;
    match kind {
        Kind::Divided => divided(s % 0x100_0000, (s >> 24) % 10),
        Kind::Whole => whole(s % 0x1_0000_0000),
        Kind::Half => half(m, j),
        Kind::Less => less(m, j),
        Kind::More => more(m, j),
        Kind::Large => large(m, (s >> 24) % 39),
        Kind::Any => any(s, draw::next(s)),
    }
}

// Digits and a power of ten that are single-precision numbers, divided by the machine.
fn divided(digits: u64, places: u64) -> Seen
    requires { digits < 2 ^ 24 }
{
    let expected = float(digits as u32) / float(ten(places));
    Seen::one(bits(false, digits, places), bits_of(expected))
}

// A whole number, converted by the machine.
fn whole(digits: u64) -> Seen
    requires { digits < 2 ^ 32 }
{
    Seen::one(bits(false, digits, 0), bits_of(float(digits as u32)))
}

fn float(n: u32) -> f32 {
    std::num::nearest_u32_to_f32(n)
}

// The bits of what the machine found, which is a number.
fn bits_of(x: f32) -> Option<u32> {
    if x.is_nan() {
        return None;
    }
    Some(x.to_bits())
}

// A pattern, by its exponent and its 24 binary places.
fn pattern(exponent: u64, places: u64) -> Option<u32>
    requires { (exponent ≤ 250) × (places ≤ 2 ^ 25) }
{
    Some((exponent * LEAST + places) as u32)
}

// m and a half, halved j - 1 times: between the patterns of m and of the next, so the even one.
fn half(m: u64, j: u64) -> Seen
    requires { (m < 2 ^ 24) × (j ≤ 8) }
{
    Seen::one(bits(false, halves(m, j), j), pattern(150 - j, m + m % 2))
}

// A little less.
fn less(m: u64, j: u64) -> Seen
    requires { (m < 2 ^ 24) × (j ≤ 8) }
{
    let read = bits(false, halves(m, j) * 10 - 1, j + 1);
    Seen::one(read, pattern(150 - j, m))
}

// A little more.
fn more(m: u64, j: u64) -> Seen
    requires { (m < 2 ^ 24) × (j ≤ 8) }
{
    let read = bits(false, halves(m, j) * 10 + 1, j + 1);
    Seen::one(read, pattern(150 - j, m + 1))
}

// m and a half, doubled j + 1 times.
fn large(m: u64, j: u64) -> Seen
    requires { (m < 2 ^ 24) × (j ≤ 38) }
{
    let read = bits(false, (2 * m + 1) << j, 0);
    Seen::one(read, pattern(150 + j, m + m % 2))
}

// Digits of any length, and up to ten places, with either sign. What has no bits counts as differing.
fn any(s: u64, t: u64) -> Seen {
    match bits(t % 2 == 1, s >> (t >> 8) % 64, (t >> 16) % 11) {
        None => Seen {
            tally: Tally {
                compared: 0,
                differ: 1,
            },
            bits: 0,
        },
        Some(pattern) => Seen {
            tally: Tally::one(true),
            bits: u64::from(pattern),
        },
    }
}

// The digits of (2m + 1) / 2^j, which has j places.
fn halves(m: u64, j: u64) -> u64
    requires { m < 2 ^ 24 }
    ensures { (1 ≤ result) × (result < 2 ^ 44) }
{
    (2 * m + 1) * five(j)
}

// 5^j, up to 5^8.
fn five(j: u64) -> u64
    ensures { (1 ≤ result) × (result ≤ 390625) }
{
    match j {
        0 => 1,
        1 => 5,
        2 => 25,
        3 => 125,
        4 => 625,
        5 => 3125,
        6 => 15625,
        7 => 78125,
        _ => 390625,
    }
}

// 10^places, up to 10^9.
fn ten(places: u64) -> u32 {
    match places {
        0 => 1,
        1 => 10,
        2 => 100,
        3 => 1000,
        4 => 10000,
        5 => 100000,
        6 => 1000000,
        7 => 10000000,
        8 => 100000000,
        _ => 1000000000,
    }
}
