// The sheets that are counted and listed, in the new edition.
use rule::Rule;
use sheet::Sheet;
use trial::trial_direct::rules::rule;
use trial_calls::sheets::{added, opened_in};
use word::Edition;

const WIDTH: u64 = 64;

// A rule of the full sheet fails the first half of a part of the words: the other halves fit, and what is above the last part. So
// each rule has a run of fitting words after its own, 50,000 of them, and 10,000,000 words have all runs.
const PART: u64 = 100_000;

const FAILED: u64 = 50_000;

// Every other bit of the lower half: 16 of them, and what they have to be.
const MASK: u64 = 0x5555_5555;

const VALUE: u64 = 0x1450_4115;

// A sheet that every word fits.
pub fn free() -> Sheet {
    opened_in(WIDTH, Edition::New)
}

// A sheet with no place free.
pub fn full() -> Sheet {
    let mut sheet = free();
    for i in 0..Rule::LIMIT {
        let from = i as u64 * PART;
        sheet = added(sheet, fails(from, FAILED - 1));
    }
    sheet
}

// Fails the words from one on, and so many after it: form 3 negated.
fn fails(from: u64, more: u64) -> Rule {
    rule(3, 1, std::num::wrapping_sub_u64(0, from), more)
}

// A sheet with 16 fixed bits.
pub fn bits() -> Sheet {
    added(free(), rule(7, 0, MASK, VALUE))
}
