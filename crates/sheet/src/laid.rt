// A sheet on a slate: a record laid out there and tested, and the calls, which stand below. That each is the call on the record is shown here.
ghost use Rattle.std.specs.Prelude.{◌≡◌, true, ◌↔◌};
ghost use Rattle.sheet.specs.slate.route.Held.{Held, Room};
ghost use Rattle.sheet.specs.route.Held.{packed};
ghost use Rattle.sheet.specs.route.Shape.{is_sheet};
ghost use Rattle.sheet.specs.Statements.{IsSheet};

use crate::slate::Head;
pub use crate::slate::slate_add::add;
pub use crate::slate::slate_calls::{back, forward, mark, open};
pub use crate::slate_ask::ask;
use crate::{Sheet, calling};
use rule::Rule;
use search::rows::NUMBERS;

impl Sheet {
    // Whether some page of accepted calls gives this record, kept numbers included.
    pub fn is_sheet(self) -> bool
        ensures value { result ≡ is_sheet self }
        ensures variant { result ≡ true ↔ IsSheet self }
    {
        let mut rows = [[0; NUMBERS]; Rule::LIMIT];
        let mut marks: [usize; Sheet::MARKS] = [0; Sheet::MARKS];
        lay_out(self, &mut rows, &mut marks).stands
    }
}

// Lays a record out, sheet or not, and tests whether it is one.
pub fn lay_out(
    sheet: Sheet,
    rows: &mut [[u64; NUMBERS]; Rule::LIMIT],
    marks: &mut [usize; Sheet::MARKS],
) -> Head
    requires { Room rows.old marks.old }
    ensures marks_after { packed result rows.new marks.new ≡ sheet }
    ensures held { Held result rows.new marks.new }
{
    crate::slate_whole::lay_out(calling::whole(sheet), rows, marks)
}
