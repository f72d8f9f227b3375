// The four rules of a gate, from the bits of its limits.
ghost use Rattle.std.specs.Prelude.{◌≡◌};
ghost use Rattle.std.specs.Float.{binary32};
ghost use Rattle.std.specs.Float.Ieee.{of_bits};
ghost use Rattle.gate.specs.Gate.{turned};
ghost use Rattle.outside.specs.on_words.Gates.{gate_number, gate_of, gate_rows, row_of, rows_of};

use crate::handing::NUMBERS;
use gate::{Four, Gate, Refusal, Span};
use rule::Rule;

/// Writes the rules of a gate, a row each. A refusal writes nothing.
#[tactic(auto, unfolding(crate::specs::on_words::Gates::gate_number, crate::specs::on_words::Gates::gate_rows))]
pub fn gate_rules(kind: u64, low: u32, high: u32, rules: &mut [[u64; NUMBERS]; Gate::RULES]) -> u64
    ensures value { result ≡ gate_number (turned (gate_of kind low high)) }
    ensures rules_after { rules.new ≡ gate_rows (turned (gate_of kind low high)) rules.old }
{
    match gate_of(kind, low, high).rules() {
        Ok(four) => {
            *rules = rows_of(four);
            0
        }
        Err(Refusal::NotANumber) => 14,
    }
}

/// The gate of a kind.
#[tactic(auto, using(crate::proofs::on_words::SearchGatesGateOf::wanted))]
pub fn gate_of(kind: u64, low: u32, high: u32) -> Gate
    ensures { result ≡ gate_of kind low high }
{
    match kind {
        0 => Gate::AtLeast(watts(low)),
        1 => Gate::AtMost(watts(high)),
        _ => Gate::Within(Span {
            low: watts(low),
            high: watts(high),
        }),
    }
}

// The float of a pattern: the language makes none of a pattern that is not a number's.
pub fn watts(pattern: u32) -> f32
    ensures { result ≡ of_bits binary32 pattern }
{
    if 0x7f80_0000 < pattern % 0x8000_0000 {
        return 0.0 / 0.0;
    }
    f32::from_bits(pattern)
}

fn rows_of(four: Four) -> [[u64; NUMBERS]; Gate::RULES]
    ensures { result ≡ rows_of four }
{
    [
        row_of(four.first),
        row_of(four.second),
        row_of(four.third),
        row_of(four.fourth),
    ]
}

fn row_of(rule: Rule) -> [u64; NUMBERS]
    ensures { result ≡ row_of rule }
{
    [rule.form, rule.sense, rule.c1, rule.c2]
}
