// Going forward again after a step back.
ghost use Rattle.sheet.specs.slate.route.Held.{Held};
ghost use Rattle.sheet.specs.slate.stepping.route.Steps.{Forwards};

use crate::slate::stepping::seeking;
use crate::slate::{Counts, Head, Said};
use page::MARKS;
use rule::Rule;
use search::rows::NUMBERS;
use word::Width;

// Brings back what was most recently taken back. Only the head changes; rules come back and none goes, so that the old ends bound what is
// kept.
#[tactic(auto, using(crate::proofs::slate::SearchGround::none_waits))]
pub fn forward(head: Head, rows: &[[u64; NUMBERS]; Rule::LIMIT], marks: &[usize; MARKS]) -> Said
    requires { Held head rows.now marks.now }
    ensures { Forwards head rows.now marks.now result.number result.head }
{
    let opening = head.opening;
    let counts = head.counts;
    let old = head.kept;
    let marked = counts.marked;
    let given = counts.given;
    let waiting = counts.waiting;
    let number = crate::slate::refuses(head);
    let refused = number != 0;
    let none = waiting == 0;
    if refused {
        return Said { number, head };
    }
    if none {
        return Said { number: 12, head };
    }
    let next = marked + 1;
    let left = waiting - 1;
    let count = crate::slate::in_force(given, marks, next, left);
    let bits = Width {
        bits: opening.width,
    };
    let note = seeking::find(rows, count, bits, old);
    let counts = Counts {
        count,
        marked: next,
        given,
        waiting: left,
    };
    let head = Head::of(opening, counts, note.kept, note.fixed);
    Said { number: 0, head }
}
