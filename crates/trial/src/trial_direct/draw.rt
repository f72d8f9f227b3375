// Numbers drawn by a fixed rule, so that every run tries the same ones.

/// The odd number nearest to 2^64 over the golden ratio: its multiples spread seeds.
pub const SPREAD: u64 = 0x9e37_79b9_7f4a_7c15;

/// The number drawn after s (xorshift: 13 up, 7 down, 17 up).
pub fn next(s: u64) -> u64 {
    let a = s ^ s << 13;
    let b = a ^ a >> 7;
    b ^ b << 17
}

/// The number drawn for the i-th of many, whose seeds are spread from one on.
pub fn spread(from: u64, i: u64) -> u64 {
    next(next(from.wrapping_add(SPREAD.wrapping_mul(i))))
}
