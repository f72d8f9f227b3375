// Decimals worked by hand, and two that are expected wrongly.
use crate::counts::Seen;
use crate::made;
use trial::trial_tally::Count;

// Whether it is below zero, its digits, how many stand after the point, and its bits.
#[derive(Clone, Copy)]
struct Row(bool, u64, u64, Option<u32>);

const ROWS: usize = 16;

const TABLE: [Row; ROWS] = [
    // 5.5, 20 and 0.1; minus 0.1 has the sign bit
    Row(false, 55, 1, Some(0x40b0_0000)),
    Row(false, 20, 0, Some(0x41a0_0000)),
    Row(false, 1, 1, Some(0x3dcc_cccd)),
    Row(true, 1, 1, Some(0xbdcc_cccd)),
    // the two zeros, however many places
    Row(false, 0, 0, Some(0x0000_0000)),
    Row(true, 0, 9, Some(0x8000_0000)),
    // 1, written in two ways
    Row(false, 1, 0, Some(0x3f80_0000)),
    Row(false, 1_000_000_000, 9, Some(0x3f80_0000)),
    // the first whole numbers that no pattern has: a half down, and a half up
    Row(false, 16_777_217, 0, Some(0x4b80_0000)),
    Row(false, 16_777_219, 0, Some(0x4b80_0002)),
    // a billionth more is no half any more
    Row(false, 16_777_217_000_000_001, 9, Some(0x4b80_0001)),
    // a half up that fills all 24 places: 2^24 - 1/2
    Row(false, 167_772_155, 1, Some(0x4b80_0000)),
    // the least above zero, and the largest digits
    Row(false, 1, 9, Some(0x3089_705f)),
    Row(false, u64::MAX, 0, Some(0x5f80_0000)),
    Row(false, u64::MAX, 9, Some(0x5089_705f)),
    // ten places are too many
    Row(false, 1, 10, None),
];

// All of them.
pub fn corners() -> Seen {
    TABLE.iter().map(|row| read(*row)).sum()
}

fn read(row: Row) -> Seen {
    let Row(minus, digits, places, expected) = row;
    Seen::one(made::bits(minus, digits, places), expected)
}

// A half that goes up, and a sign that is dropped.
pub fn wrong() -> Seen {
    let half = read(Row(false, 16_777_217, 0, Some(0x4b80_0001)));
    half.plus(read(Row(true, 1, 1, Some(0x3dcc_cccd))))
}
