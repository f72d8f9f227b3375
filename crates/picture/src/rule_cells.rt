// A picture of a sheet, by one rule in force: how each column goes.

ghost use Rattle.std.specs.Prelude.{◌≡◌};
ghost use Rattle.picture.specs.Picture.{rule_cell};

use crate::shade::Cell;
use crate::{alone, words_of};
use rule::Rule;
use search::rows::NUMBERS;
use sheet::Sheet;
use word::Width;

/// A column by one rule in force, by its number.
pub fn rule_at(sheet: Sheet, number: usize, column: u64) -> Cell
    ensures { result ≡ rule_cell sheet number column }
{
    let mut rows = [[0; NUMBERS]; Rule::LIMIT];
    let head = sheet::laid_rows::lay_out(sheet, &mut rows);
    let bits = head.opening.width;
    let in_force = head.counts.count;
    let Some(words) = words_of(head.stands, bits, column) else {
        return Cell::Nowhere;
    };
    if in_force <= number {
        return Cell::Nowhere;
    }
    let rule = search::rows::rule_at(&rows, number);
    alone(rule, Width { bits }, words)
}
