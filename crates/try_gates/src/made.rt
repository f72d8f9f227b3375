// The limits and the words that are tried.
// How many corners there are, and how many words: each corner and its neighbours.
pub const CORNERS: usize = 40;

pub const WORDS: usize = 120;

// With either sign: zero, the least and the greatest subnormal and normal numbers, 1, 2 and 100, neighbours of these, infinity; then
// patterns that are not numbers, with the least and the greatest payloads.
const PATTERNS: [u32; 20] = [
    0x0000_0000,
    0x0000_0001,
    0x0000_0002,
    0x007f_fffe,
    0x007f_ffff,
    0x0080_0000,
    0x0080_0001,
    0x3f7f_ffff,
    0x3f80_0000,
    0x3f80_0001,
    0x4000_0000,
    0x42c8_0000,
    0x7f7f_fffe,
    0x7f7f_ffff,
    0x7f80_0000,
    0x7f80_0001,
    0x7fbf_ffff,
    0x7fc0_0000,
    0x7fc0_0001,
    0x7fff_ffff,
];

// The corners: each pattern, and with the sign bit.
pub fn corner(i: usize) -> u32 {
    let pattern = PATTERNS[i / 2 % 20];
    if i % 2 == 0 {
        pattern
    } else {
        pattern ^ 0x8000_0000
    }
}

// The corner k / 3, or the word before or after it.
pub fn word(k: usize) -> u64 {
    let near = corner(k / 3).wrapping_sub(1).wrapping_add((k % 3) as u32);
    u64::from(near)
}
