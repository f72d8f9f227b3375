// The rules in force, counted by the marks.
ghost use Rattle.std.specs.Prelude.{◌≡◌, ◌+◌, ◌≤◌, length};
ghost use Rattle.page.specs.Page.{MARKS};
ghost use Rattle.sheet.specs.slate.route.Shape.{in_force};

use page::MARKS;

// How many rules are in force: all that were given where nothing waits, else as many as the mark next to come back notes.
pub fn in_force(given: usize, marks: &[usize; MARKS], marked: usize, waiting: usize) -> usize
    requires { (marked + waiting ≤ MARKS) × (length marks.now ≡ MARKS) }
    ensures { result ≡ in_force given marks.now marked waiting }
{
    if waiting == 0 {
        return given;
    }
    marks[marked]
}
