// The gates of patterns.
use crate::trial_gates::direct::Kind;
use gate::{Gate, Span};

// The float of a pattern.
fn watts(pattern: u32) -> f32 {
    if 0x7f80_0000 < pattern % 0x8000_0000 {
        return 0.0 / 0.0;
    }
    f32::from_bits(pattern)
}

/// The gate of a kind with these limits, of which it takes those that the kind has.
pub fn gate(kind: Kind, low: u32, high: u32) -> Gate {
    match kind {
        Kind::Least => Gate::AtLeast(watts(low)),
        Kind::Most => Gate::AtMost(watts(high)),
        Kind::Within => Gate::Within(Span {
            low: watts(low),
            high: watts(high),
        }),
    }
}
