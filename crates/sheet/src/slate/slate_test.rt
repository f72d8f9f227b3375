// The test whether a slate is a sheet at all: head, rows and marks tested, and the bands of the rules drawn.
ghost use Rattle.std.specs.Prelude.{◌≡◌};
ghost use Rattle.search.specs.rows.route.Rows.{rules_in};
ghost use Rattle.sheet.specs.slate.route.Held.{Held, Room, found_to};

use crate::slate::Head;
use page::MARKS;
use rule::Rule;
use rule::band::Run;
use search::rows::{InForce, NUMBERS};
use word::Width;

// The head with the test whether the record is a sheet and, where it is and is not blank, the bands of its rules drawn, of those that
// wait too, and the last rule in force noted.
pub fn tested(head: Head, rows: &mut [[u64; NUMBERS]; Rule::LIMIT], marks: &[usize; MARKS]) -> Head
    requires { Room rows.old marks.now }
    ensures value { result ≡ found_to head result.stands result.fixed }
    ensures rows_unchanged { rules_in rows.new ≡ rules_in rows.old }
    ensures held { Held result rows.new marks.now }
{
    let count = head.counts.count;
    let given = head.counts.given;
    let old = head.fixed;
    let bits = Width {
        bits: head.opening.width,
    };
    if bits.bits == 0 {
        return head.found(crate::slate::slate_shape::blank(head, rows, marks), old);
    }
    if !crate::slate::slate_shape::shaped(head, rows, marks) {
        return head.found(false, old);
    }
    search::laying::draw(rows, given, bits);
    let fixed = search::laying::bits_of(rows, count);
    let force = InForce {
        count,
        fixed,
        width: bits,
    };
    let found = search::verdict::laid::solve(
        rows,
        force,
        Run {
            from: 0,
            to: bits.top(),
        },
    );
    crate::slate::put_note(rows, count, found, fixed);
    head.found(head.kept == found, fixed)
}
