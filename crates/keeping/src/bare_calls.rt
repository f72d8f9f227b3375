// The calls on a sheet that a caller keeps which are handed nothing else: the blank sheet, a mark, and the steps back and forward. Each
// but the first reads the numbers anew, tests them for 17 as the call beneath does, and writes them down again only where it is accepted:
// a refused call leaves every number as it was.

ghost use Rattle.std.specs.Prelude.{◌≡◌};
ghost use Rattle.page.specs.Calls.{back, forward, mark};
ghost use Rattle.sheet.specs.Record.{blank};
ghost use Rattle.keeping.specs.kept_numbers.Numbers.{numbers_of};
ghost use Rattle.keeping.specs.kept_changes.Changed.{Changed};

use crate::kept_put::written;
use crate::{keep, read};
use sheet::Sheet;

/// The blank sheet.
pub fn blank(numbers: &mut [u64; crate::NUMBERS])
    ensures { numbers.new ≡ numbers_of blank }
{
    *numbers = written(Sheet::blank());
}

/// Sets a mark.
pub fn mark(numbers: &mut [u64; crate::NUMBERS]) -> u64
    ensures { Changed mark numbers.old numbers.new result }
{
    keep(numbers, read(*numbers).mark())
}

/// Goes back to the newest mark.
pub fn back(numbers: &mut [u64; crate::NUMBERS]) -> u64
    ensures { Changed back numbers.old numbers.new result }
{
    keep(numbers, read(*numbers).back())
}

/// Brings back what was most recently taken back.
pub fn forward(numbers: &mut [u64; crate::NUMBERS]) -> u64
    ensures { Changed forward numbers.old numbers.new result }
{
    keep(numbers, read(*numbers).forward())
}
