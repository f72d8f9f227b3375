// Setting a power gate on a sheet: its four rules are added, or none is.
#![tactic(auto)]

pub mod gate_refusal;

ghost use Rattle.page.specs.Calls.{set_gate};
ghost use Rattle.sheet.specs.Statements.{Outcome};
ghost use Rattle.gating.specs.route.Added.{AddedFor};

use crate::gate_refusal::refusal_of;
use gate::{Four, Gate, Refusal};
use sheet::{Answer, Sheet};

/// Sets a gate on any record.
pub fn set(sheet: Sheet, gate: Gate) -> Answer
    ensures { Outcome sheet (set_gate gate) result }
{
    match gate.rules() {
        Ok(four) => added(sheet, four),
        Err(Refusal::NotANumber) => Answer {
            number: refusal_of(sheet, true),
            sheet,
        },
    }
}

// Adds the rules of a gate whose limits are numbers, in the sheet's own edition.
fn added(sheet: Sheet, four: Four) -> Answer
    ensures { AddedFor sheet four result }
{
    let number = refusal_of(sheet, false);
    if number != 0 {
        return Answer { number, sheet };
    }
    let edition = sheet.edition;
    let first = sheet.add(edition, four.first);
    let second = first.sheet.add(edition, four.second);
    let third = second.sheet.add(edition, four.third);
    third.sheet.add(edition, four.fourth)
}
