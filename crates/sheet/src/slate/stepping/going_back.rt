// Going back to the newest mark.
ghost use Rattle.sheet.specs.slate.route.Held.{Held};
ghost use Rattle.sheet.specs.slate.stepping.route.Steps.{Backs};

use crate::slate::stepping::seeking;
use crate::slate::{Counts, Head, Said};
use page::MARKS;
use rule::Rule;
use search::rows::NUMBERS;
use word::Width;

// Goes back to the newest mark: it and the rules added after it wait from now on, where they are. Only the head changes.
#[tactic(auto, using(crate::proofs::slate::SearchGround::no_mark))]
pub fn back(head: Head, rows: &[[u64; NUMBERS]; Rule::LIMIT], marks: &[usize; MARKS]) -> Said
    requires { Held head rows.now marks.now }
    ensures { Backs head rows.now marks.now result.number result.head }
{
    let opening = head.opening;
    let counts = head.counts;
    let marked = counts.marked;
    let waiting = counts.waiting;
    let number = crate::slate::refuses(head);
    let refused = number != 0;
    let none = marked == 0;
    if refused {
        return Said { number, head };
    }
    if none {
        return Said { number: 8, head };
    }
    let at = marked - 1;
    let more = waiting + 1;
    let left = marks[at];
    let bits = Width {
        bits: opening.width,
    };
    let whole = crate::slate::no_rules(bits).kept;
    let note = seeking::find(rows, left, bits, whole);
    let kept = note.kept;
    let fixed = note.fixed;
    let counts = Counts {
        count: left,
        marked: at,
        given: counts.given,
        waiting: more,
    };
    let head = Head::of(opening, counts, kept, fixed);
    Said { number: 0, head }
}
