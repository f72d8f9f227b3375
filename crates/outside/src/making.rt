// A sheet made of a list of rules that a caller outside hands in: opened, and each rule added, up to the first refusal.

ghost use Rattle.std.specs.Prelude.{◌≡◌};
ghost use Rattle.outside.specs.handing.Handed.{rules_in};
ghost use Rattle.outside.specs.making.Made.{given, makes};

use crate::handing::{NUMBERS, rule_in};
use page::Opening;
use sheet::Sheet;

/// The first refusal of a list: its number, the place of the rule that was refused, or the list's length, and the sheet as it is then.
#[derive(Clone, Copy)]
pub struct Refused {
    pub number: u64,
    pub place: usize,
    pub sheet: Sheet,
}

/// Opens a sheet and adds each rule in order. The adds are of the opening's edition.
pub fn make(opening: Opening, rules: &[[u64; NUMBERS]]) -> Result<Sheet, Refused>
    ensures { result ≡ given (makes opening (rules_in rules.now)) }
{
    let opened = Sheet::blank().open(opening);
    let mut sheet = opened.sheet;
    if opened.number != 0 {
        return Err(Refused {
            number: opened.number,
            place: rules.len(),
            sheet,
        });
    }
    for (place, row) in rules.iter().enumerate() {
        let answer = sheet.add(opening.edition, rule_in(row));
        if answer.number != 0 {
            return Err(Refused {
                number: answer.number,
                place,
                sheet,
            });
        }
        sheet = answer.sheet;
    }
    Ok(sheet)
}
