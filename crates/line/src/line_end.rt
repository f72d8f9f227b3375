// Where what a line says ends: right after its last letter that is no blank and stands before its comment.

ghost use Rattle.std.specs.Prelude.{◌≡◌};
ghost use Rattle.line.specs.line_end.End.{end_of};
ghost use Rattle.line.specs.line_end.route.Course.{past};

use crate::token::class::{Class, class_of};

#[tactic(auto, using(crate::proofs::line_end::SearchEndOf::wanted), unfolding(crate::specs::line_end::route::Course::end_from))]
pub fn end_of(line: &[u8]) -> usize
    ensures { result ≡ end_of line.now }
{
    let mut end: usize = 0;
    let mut i: usize = 0;
    while i < line.len() {
        let class = class_of(line[i]);
        if class == Class::Comment {
            return end;
        }
        i += 1;
        end = past(class, i, end);
    }
    end
}

// The end after a letter of a class that ends before a place: blanks leave it as it is.
#[tactic(auto, using(crate::proofs::line_end::SearchPast::wanted), unfolding(crate::specs::line_end::route::Course::past))]
fn past(class: Class, to: usize, end: usize) -> usize
    ensures { result ≡ past class to end }
{
    if class == Class::Blank {
        return end;
    }
    to
}
