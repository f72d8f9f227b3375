// The number with which a gate is refused: what is looked at before its rules are added.

ghost use Rattle.gating.specs.gate_refusal.route.Seen.{SeenFor};

use gate::Gate;
use rule::Rule;
use sheet::Sheet;

// The most rules that leave room for those of a gate.
const ROOM: usize = Rule::LIMIT - Gate::RULES;

/// The number, or 0; `none` says that a limit is not a number.
// A number, since it is handed on as it is in the sheet's own answer, which has one.
#[tactic(auto, using(crate::proofs::gate_refusal::SearchRefusalOf::wanted), unfolding(crate::specs::gate_refusal::route::Seen::SeenFor))]
pub fn refusal_of(sheet: Sheet, none: bool) -> u64
    ensures { SeenFor sheet none result }
{
    let stands = sheet.is_sheet();
    let blank = sheet.width == 0;
    let other = sheet.width != Gate::WIDTH;
    let full = ROOM < sheet.count;
    if !stands {
        return 17;
    }
    if blank {
        return 1;
    }
    if other {
        return 13;
    }
    if none {
        return 14;
    }
    if full {
        return 6;
    }
    0
}
