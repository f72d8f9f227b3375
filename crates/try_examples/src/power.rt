use gate::{Gate, Span};
use page::Opening;
use sheet::Sheet;
use word::Edition;

// Whether some reading lies from low to high watts. A span with a limit that is not a number is refused.
pub fn some_reading(low: f32, high: f32) -> bool {
    let opening = Opening {
        width: Gate::WIDTH,
        edition: Edition::Old,
    };
    let opened = Sheet::blank().open(opening);
    let sheet = opened.sheet;
    let answer = gating::set(sheet, Gate::Within(Span { low, high }));
    let set = answer.sheet;
    let kept = set.kept;
    if answer.number != 0 {
        return false;
    }
    kept.verdict != 0
}
