// Rules and marks taken away: what waits, at an add or a mark; and all, at an opening.
ghost use Rattle.std.specs.Prelude.{◌≡◌, replicate};
ghost use Rattle.rule.specs.Meaning.{RULES};
ghost use Rattle.rule.specs.accept.Accept.{no_rule};
ghost use Rattle.search.specs.rows.route.Rows.{rules_in};
ghost use Rattle.page.specs.Page.{MARKS};
ghost use Rattle.sheet.specs.slate.route.Held.{Held, Waits, bare_marks, bare_rows};

use crate::slate::Head;
use page::MARKS;
use rule::Rule;
use search::rows::NUMBERS;

// Puts zeros where rules and marks waited.
pub fn clear_waiting(
    head: Head,
    rows: &mut [[u64; NUMBERS]; Rule::LIMIT],
    marks: &mut [usize; MARKS],
)
    requires { Waits head (rules_in rows.old) marks.old }
    ensures rows_after { rows.new ≡ bare_rows head rows.old }
    ensures marks_after { marks.new ≡ bare_marks head marks.old }
{
    let count = head.counts.count;
    let given = head.counts.given;
    let marked = head.counts.marked;
    let waiting = head.counts.waiting;
    search::laying::clear(rows, count, given);
    crate::marks::clear_marks(marks, marked, marked + waiting);
}

// Takes every rule and every mark away. Where there is a sheet, those that were given are all there are.
pub fn clear_all(head: Head, rows: &mut [[u64; NUMBERS]; Rule::LIMIT], marks: &mut [usize; MARKS])
    requires { Held head rows.old marks.old }
    ensures rows_after { rules_in rows.new ≡ replicate RULES no_rule }
    ensures marks_after { marks.new ≡ replicate MARKS 0 }
{
    let given = head.counts.given;
    if !head.stands {
        search::laying::clear(rows, 0, Rule::LIMIT);
        crate::marks::clear_marks(marks, 0, MARKS);
        return;
    }
    search::laying::clear(rows, 0, given);
    crate::marks::clear_marks(marks, 0, head.counts.marked + head.counts.waiting);
}
