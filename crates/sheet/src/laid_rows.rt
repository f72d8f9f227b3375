// A sheet laid out in rows for a call that only looks at it: the marks are laid out beside them, and left behind.

ghost use Rattle.std.specs.Prelude.{◌≡◌, length};
ghost use Rattle.rule.specs.Meaning.{RULES};
ghost use Rattle.sheet.specs.laid_rows.route.Laid.{LaidIn};

use crate::slate::Head;
use crate::{Sheet, laid};
use rule::Rule;
use search::rows::NUMBERS;

// Lays a record out, sheet or not, and tests whether it is one.
pub fn lay_out(sheet: Sheet, rows: &mut [[u64; NUMBERS]; Rule::LIMIT]) -> Head
    requires { length rows.old ≡ RULES }
    ensures { LaidIn sheet result rows.new }
{
    let mut marks: [usize; Sheet::MARKS] = [0; Sheet::MARKS];
    laid::lay_out(sheet, rows, &mut marks)
}
