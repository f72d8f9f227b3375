// Marks in a lent array of numbers: for each, how many rules there were when it was set.

ghost use Rattle.std.specs.Prelude.{◌≡◌, ◌++◌, ◌-◌, ◌≤◌, drop, length, replicate, take};
ghost use Rattle.rule.specs.accept.Accept.{every};
ghost use Rattle.page.specs.Page.{MARKS};
ghost use Rattle.page.specs.route.Shape.{is_zero, marks_shaped, rising};

use page::MARKS;

// Whether m marks rise up to n, with zeros after them.
#[tactic(auto, unfolding(page::specs::route::Shape::marks_shaped))]
pub fn marked_so(marks: &[usize; MARKS], m: usize, n: usize) -> bool
    requires { (m ≤ MARKS) × (length marks.now ≡ MARKS) }
    ensures { result ≡ marks_shaped n m marks.now }
{
    let rises = rising(marks, m, n);
    let zeros = all_zero(marks, m);
    rises && zeros
}

// Whether the first m marks rise, up to n.
#[tactic(auto, using(crate::proofs::marks::SearchRising::wanted), unfolding(page::specs::route::Shape::rising))]
fn rising(marks: &[usize; MARKS], m: usize, n: usize) -> bool
    requires { (m ≤ MARKS) × (length marks.now ≡ MARKS) }
    ensures { result ≡ rising 0 (take m marks.now) n }
{
    let mut low = 0;
    for &mark in &marks[..m] {
        if mark < low {
            return false;
        }
        low = mark;
    }
    low <= n
}

// Whether there are zeros from place m on.
#[tactic(auto, using(crate::proofs::marks::SearchAllZero::wanted), unfolding(rule::specs::accept::Accept::every))]
pub fn all_zero(marks: &[usize; MARKS], m: usize) -> bool
    requires { (m ≤ MARKS) × (length marks.now ≡ MARKS) }
    ensures { result ≡ every is_zero (drop m marks.now) }
{
    for &mark in &marks[m..] {
        if mark != 0 {
            return false;
        }
    }
    true
}

// Takes the marks from place n up to m away.
pub fn clear_marks(marks: &mut [usize; MARKS], n: usize, m: usize)
    requires { (n ≤ m) × (m ≤ MARKS) × (length marks.old ≡ MARKS) }
    ensures { marks.new ≡ take n marks.old ++ (replicate (m - n) 0 ++ drop m marks.old) }
{
    marks[n..m].fill(0);
}

// The marks of a record, laid out.
pub fn set_marks(marks: &mut [usize; MARKS], set: [usize; MARKS])
    ensures { (marks.new ≡ set) × (length marks.new ≡ MARKS) }
{
    *marks = set;
}
