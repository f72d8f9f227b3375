// Bits that are looked for in words, against a search that goes one word at a time and, at wide widths, a way that goes bit by bit.

pub mod called;
pub mod masks;
pub mod wide;
