// A picture of a sheet, by all rules in force: how each column goes.

ghost use Rattle.std.specs.Prelude.{◌≡◌};
ghost use Rattle.picture.specs.Picture.{all_cell};

use crate::shade::Cell;
use crate::words_of;
use rule::Rule;
use search::rows::{InForce, NUMBERS};
use sheet::Sheet;
use word::Width;

/// A column by all rules in force: any record, and any number.
pub fn all_at(sheet: Sheet, column: u64) -> Cell
    ensures { result ≡ all_cell sheet column }
{
    let mut rows = [[0; NUMBERS]; Rule::LIMIT];
    let head = sheet::laid_rows::lay_out(sheet, &mut rows);
    let bits = head.opening.width;
    let Some(words) = words_of(head.stands, bits, column) else {
        return Cell::Nowhere;
    };
    let force = InForce {
        count: head.counts.count,
        fixed: head.fixed,
        width: Width { bits },
    };
    crate::shade::stretch(&rows, force, words)
}
