// The next word that has given bits, again and again.
use rule::bits::Fixed;
use trial::trial_direct::draw::next;
use word::Width;

const LOOKED: u64 = 10_000_000;

// What the words that are found come to, by any right way to look for them.
const SUM: u64 = 1_475_656_598_760_131_695;

pub fn all(rt: &impl Print) {
    // How many comes before the work, so that it is written where the work is cut off.
    let _ = print!(rt; "{LOOKED}");
    if summed() == SUM {
        let _ = println!(rt; " words found as expected");
    } else {
        let _ = println!(rt; " words found, and the sum differs");
    }
}

// The sum of the words found, modulo 2^64. Mask, value and p are drawn one after another; half the masks have few bits.
fn summed() -> u64 {
    let mut sum: u64 = 0;
    let mut s: u64 = 1;
    for i in 0..LOOKED {
        let mask = next(s);
        let value = next(mask);
        s = next(value);
        sum = sum.wrapping_add(found(mask & value >> (i % 64), value, s));
    }
    sum
}

// The word found, or 0.
fn found(mask: u64, value: u64, p: u64) -> u64 {
    let fixed = Fixed::Bits {
        mask,
        value: value & mask,
    };
    match fixed.next(Width { bits: 64 }, p) {
        Some(x) => x,
        None => 0,
    }
}
