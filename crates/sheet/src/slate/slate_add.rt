// Adding a rule to a slate.
ghost use Rattle.sheet.specs.slate.route.Held.{Held};
ghost use Rattle.sheet.specs.slate.slate_calls.route.Done.{Adds};

mod narrowing;

use crate::slate::{Counts, Head, Said};
use page::MARKS;
use rule::Rule;
use rule::band::Band;
use search::rows::{InForce, NUMBERS};
use word::{Edition, Width};

// Adds a rule, from a frame of an edition: what waited is taken away, the rule goes into the next row with its band and a note, and what is
// kept is as it was or found from the old ends.
pub fn add(
    head: Head,
    rows: &mut [[u64; NUMBERS]; Rule::LIMIT],
    marks: &mut [usize; MARKS],
    edition: Edition,
    rule: Rule,
) -> Said
    requires { Held head rows.old marks.old }
    ensures { Adds head rows.old marks.old edition rule result.number result.head rows.new marks.new }
{
    let opening = head.opening;
    let counts = head.counts;
    let old = head.kept;
    let old_bits = head.fixed;
    let count = counts.count;
    let marked = counts.marked;
    let number = crate::slate::refuses_rule(head, edition, rule);
    let is_refused = number != 0;
    if is_refused {
        return Said { number, head };
    }
    let next = count + 1;
    let bits = Width {
        bits: opening.width,
    };
    crate::slate::clear_waiting(head, rows, marks);
    let band = Band::of(rule, bits);
    search::rows::put(rows, count, rule, band);
    let fixed = old_bits.with(rule);
    let force = InForce {
        count: next,
        fixed,
        width: bits,
    };
    let kept = narrowing::narrowed(rows, force, band, old);
    crate::slate::put_note(rows, next, kept, fixed);
    let counts = Counts {
        count: next,
        marked,
        given: next,
        waiting: 0,
    };
    let head = Head::of(opening, counts, kept, fixed);
    Said { number: 0, head }
}
