// Tries the bits that rules fix, against a plain search at small widths, and at wide ones against a way that goes bit by bit.
//
// The counts. next: with S = 8 + 64 + 512 + 4096 pairs of constants with a word over the widths 1 to 4, S + 32 + 1024 + 32768, with
// the pairs of rules at widths 1 to 3. prev, by calls: a sheet takes 3^w bit rules, each bit of the mask free, 0 or 1, on 2^w words, so
// 6 + 36 + 216 + 1296 of one rule and, with 9^w pairs, 18 + 324 + 5832 of two. small next: at the width w a mask reaches one bit past
// the top word, and each of its w + 1 bits is free, fixed to 0 or fixed to 1, so 3^(w + 1) of them on 2^w words: 18 + 108 + 648 + 3888
// + 23328 at the widths 1 to 5. small prev, by calls too: within the width, 6^w: 6 + 36 + 216 + 1296 + 7776. wide: 4 widths, with each
// of 16 words as the mask, as the value and as p: 4 * 16^3. known has a wrong word and a wrong "none" for each way, and a word where
// none is.
#![tactic(auto)]

mod sheets;

use trial_sheets::trial_bits::masks::Way;
use trial_sheets::trial_bits::{masks, wide};

fn main(rt: HostRuntime) {
    let _ = println!(rt; "next {}", sheets::over_widths(Way::Next));
    let _ = println!(rt; "prev {}", sheets::over_widths(Way::Prev));
    let _ = println!(rt; "small next {}", masks::small(Way::Next));
    let _ = println!(rt; "small prev {}", masks::small(Way::Prev));
    let _ = println!(rt; "wide next {}", wide::over_widths(Way::Next));
    let _ = println!(rt; "wide prev {}", wide::over_widths(Way::Prev));
    let _ = println!(rt; "known {}", masks::known());
}
