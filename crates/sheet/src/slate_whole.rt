// A slate as one value: laid out in rows and marks and tested, a call made there or asked, and packed again.
ghost use Rattle.std.specs.Prelude.{◌≡◌, length};
ghost use Rattle.rule.specs.Meaning.{RULES};
ghost use Rattle.sheet.specs.slate.route.Held.{Held, Room};
ghost use Rattle.sheet.specs.slate_whole.route.Whole.{AskedWhole, CalledWhole, whole_of};

use crate::slate::{Counts, Head};
use crate::slate_ask::Reply;
use crate::slate_make::Call;
use page::{MARKS, Opening};
use rule::Rule;
use rule::bits::Fixed;
use search::rows::NUMBERS;
use search::verdict::Kept;

// What a slate stands for, whole: its opening, how many rules and marks there are, what is kept, and all its rules and marks.
#[derive(Clone, Copy)]
pub struct Whole {
    pub opening: Opening,
    pub counts: Counts,
    pub kept: Kept,
    pub rules: [Rule; Rule::LIMIT],
    pub marks: [usize; MARKS],
}

// What a call comes to: 0 or the number of a refusal, and the whole as it is then.
#[derive(Clone, Copy)]
pub struct Called {
    pub number: u64,
    pub whole: Whole,
}

// Lays a whole out, a sheet or not, and tests whether it is one.
pub fn lay_out(
    whole: Whole,
    rows: &mut [[u64; NUMBERS]; Rule::LIMIT],
    marks: &mut [usize; MARKS],
) -> Head
    requires { Room rows.old marks.old }
    ensures marks_after { whole_of result rows.new marks.new ≡ whole }
    ensures held { Held result rows.new marks.new }
{
    let laid = whole.rules;
    let set = whole.marks;
    search::laying::lay_out(rows, laid);
    crate::slate::set_marks(marks, set);
    // the test says whether it stands
    let head = Head::of(
        whole.opening,
        whole.counts,
        whole.kept,
        Fixed::Bits { mask: 0, value: 0 },
    );
    crate::slate::slate_test::tested(head, rows, marks)
}

// Packs what a slate stands for.
pub fn pack(head: Head, rows: &[[u64; NUMBERS]; Rule::LIMIT], marks: &[usize; MARKS]) -> Whole
    requires { length rows.now ≡ RULES }
    ensures { result ≡ whole_of head rows.now marks.now }
{
    let counts = head.counts;
    let laid = search::laying::pack(rows);
    let set = *marks;
    Whole {
        opening: head.opening,
        counts,
        kept: head.kept,
        rules: laid,
        marks: set,
    }
}

// A call on a whole, a sheet or not.
pub fn call(whole: Whole, call: Call) -> Called
    ensures { CalledWhole whole call result.number result.whole }
{
    let mut rows = [[0; NUMBERS]; Rule::LIMIT];
    let mut marks: [usize; MARKS] = [0; MARKS];
    let head = lay_out(whole, &mut rows, &mut marks);
    let said = crate::slate_make::make(head, &mut rows, &mut marks, call);
    let then = said.head;
    let whole = pack(then, &rows, &marks);
    Called {
        number: said.number,
        whole,
    }
}

// Asks a whole, a sheet or not.
pub fn ask(whole: Whole, out: &mut [u64]) -> Reply
    ensures { AskedWhole whole out.old out.new result }
{
    let mut rows = [[0; NUMBERS]; Rule::LIMIT];
    let mut marks: [usize; MARKS] = [0; MARKS];
    let head = lay_out(whole, &mut rows, &mut marks);
    crate::slate_ask::ask(head, &rows, out)
}
