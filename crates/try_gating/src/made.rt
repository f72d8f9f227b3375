// Gates and sheets to try.
use gate::{Gate, Span};
use sheet::Sheet;
use trial_calls::sheets::added;

pub fn within(low: f32, high: f32) -> Gate {
    Gate::Within(Span { low, high })
}

/// What is not a number.
pub fn no_number() -> f32 {
    0.0 / 0.0
}

/// The sheet that is left by adding a gate's rules one by one.
pub fn adds(sheet: Sheet, gate: Gate) -> Sheet {
    match gate.rules() {
        Ok(four) => {
            let rules = [four.first, four.second, four.third, four.fourth];
            rules.iter().fold(sheet, |more, rule| added(more, *rule))
        }
        Err(_) => sheet,
    }
}
