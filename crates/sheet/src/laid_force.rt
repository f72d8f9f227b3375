// A sheet laid out in rows for a call that only looks at it, with the number that comes before the table, and what is in force.

ghost use Rattle.std.specs.Prelude.{◌≡◌, length};
ghost use Rattle.rule.specs.Meaning.{RULES};
ghost use Rattle.sheet.specs.laid_force.route.Found.{FoundIn};

use crate::Sheet;
use rule::Rule;
use search::rows::{InForce, NUMBERS};
use word::Width;

// 17 where the record is no sheet, 1 on the blank sheet, else 0; and what a search over the rows goes by.
#[derive(Clone, Copy)]
pub struct Found {
    pub number: u64,
    pub force: InForce,
}

// Lays a record out, sheet or not, and says what is found of it.
pub fn look(sheet: Sheet, rows: &mut [[u64; NUMBERS]; Rule::LIMIT]) -> Found
    requires { length rows.old ≡ RULES }
    ensures { FoundIn sheet result rows.new }
{
    let head = crate::laid_rows::lay_out(sheet, rows);
    let number = crate::slate::refuses(head);
    let force = InForce {
        count: head.counts.count,
        fixed: head.fixed,
        width: Width {
            bits: head.opening.width,
        },
    };
    Found { number, force }
}
