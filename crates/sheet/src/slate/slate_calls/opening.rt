// Opening.
ghost use Rattle.sheet.specs.slate.route.Held.{Held};
ghost use Rattle.sheet.specs.slate.slate_calls.route.Done.{Opens};

use crate::slate::{Counts, Head, Said};
use page::{MARKS, Opening};
use rule::Rule;
use search::rows::NUMBERS;
use word::Width;

// Opens a new sheet. What was there is kept where the width is refused, and is not read.
pub fn open(
    head: Head,
    rows: &mut [[u64; NUMBERS]; Rule::LIMIT],
    marks: &mut [usize; MARKS],
    opening: Opening,
) -> Said
    requires { Held head rows.old marks.old }
    ensures { Opens head rows.old marks.old opening result.number result.head rows.new marks.new }
{
    let width = opening.width;
    let edition = opening.edition;
    let refused = Said { number: 2, head };
    let is_none = width < 1;
    if is_none {
        return refused;
    }
    if edition.terms().widest < width {
        return refused;
    }
    crate::slate::clear_all(head, rows, marks);
    let none = crate::slate::no_rules(Width { bits: width });
    let counts = Counts {
        count: 0,
        marked: 0,
        given: 0,
        waiting: 0,
    };
    let head = Head::of(opening, counts, none.kept, none.fixed);
    Said { number: 0, head }
}
