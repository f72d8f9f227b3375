// A call that changes a slate, told by a value, and made.
ghost use Rattle.sheet.specs.slate.route.Held.{Held};
ghost use Rattle.sheet.specs.slate_make.route.Makes.{Makes};

use crate::slate::{Head, Said, slate_add};
use page::{MARKS, Opening};
use rule::Rule;
use search::rows::NUMBERS;
use word::Edition;

// A call that changes a sheet. An opening and an add are frames of an edition.
#[derive(Clone, Copy)]
pub enum Call {
    Open(Opening),
    Add(Edition, Rule),
    Mark,
    Back,
    Forward,
}

// Makes a call.
pub fn make(
    head: Head,
    rows: &mut [[u64; NUMBERS]; Rule::LIMIT],
    marks: &mut [usize; MARKS],
    call: Call,
) -> Said
    requires { Held head rows.old marks.old }
    ensures { Makes head rows.old marks.old call result.number result.head rows.new marks.new }
{
    match call {
        Call::Open(opening) => crate::slate::slate_calls::open(head, rows, marks, opening),
        Call::Add(edition, rule) => slate_add::add(head, rows, marks, edition, rule),
        Call::Mark => crate::slate::slate_calls::mark(head, rows, marks),
        Call::Back => crate::slate::slate_calls::back(head, rows, marks),
        Call::Forward => crate::slate::slate_calls::forward(head, rows, marks),
    }
}
