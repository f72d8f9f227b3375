// Setting a mark.
ghost use Rattle.sheet.specs.slate.route.Held.{Held};
ghost use Rattle.sheet.specs.slate.slate_calls.route.Done.{Marks};

use crate::slate::{Counts, Head, Said};
use page::MARKS;
use rule::Rule;
use search::rows::NUMBERS;

// Sets a mark. What waited is taken away, and what is kept is noted where a step back will look for it.
#[tactic(auto, using(crate::proofs::slate::SearchGround::no_place))]
pub fn mark(
    head: Head,
    rows: &mut [[u64; NUMBERS]; Rule::LIMIT],
    marks: &mut [usize; MARKS],
) -> Said
    requires { Held head rows.old marks.old }
    ensures { Marks head rows.old marks.old result.number result.head rows.new marks.new }
{
    let opening = head.opening;
    let counts = head.counts;
    let kept = head.kept;
    let fixed = head.fixed;
    let count = counts.count;
    let marked = counts.marked;
    let number = crate::slate::refuses(head);
    let refused = number != 0;
    let full = MARKS <= marked;
    if refused {
        return Said { number, head };
    }
    if full {
        return Said { number: 7, head };
    }
    crate::slate::clear_waiting(head, rows, marks);
    crate::slate::put_note(rows, count, kept, fixed);
    marks[marked] = count;
    let next = marked + 1;
    let counts = Counts {
        count,
        marked: next,
        given: count,
        waiting: 0,
    };
    let head = Head::of(opening, counts, kept, fixed);
    Said { number: 0, head }
}
