// A batch on its slate: a sheet is opened there, given each rule in order, and asked. What the batch call answers is said here.

ghost use Rattle.std.specs.Prelude.{length, take};
ghost use Rattle.batch.specs.adds.route.Few.{few};
ghost use Rattle.batch.specs.course.Batch.{Gives};
ghost use Rattle.batch.specs.course.route.Route.{batch_at};

use crate::adds::few;
use crate::begun::begin;
use page::Opening;
use rule::Rule;
use search::rows::NUMBERS;
use sheet::{Reply, Sheet, laid};

/// What a batch answers: what the last call answered, and the place of the rule that was refused, or the list's length.
#[derive(Clone, Copy)]
pub struct Batch {
    pub reply: Reply,
    pub place: usize,
}

impl Batch {
    /// One rule more than a sheet takes.
    pub const MOST: usize = Rule::LIMIT + 1;
}

/// The batch call on a list of so many rules, of which an array has the first: all of them, or as many as are read. A refused opening
/// is said at the list's length.
pub fn beginning(
    opening: Opening,
    rules: [Rule; Batch::MOST],
    given: usize,
    out: &mut [u64],
) -> Batch
    ensures { Gives (batch_at opening (take (few given) rules) given (length out.old)) out.old out.new result }
{
    let count = few(given);
    answered(opening, &rules[..count], given, out)
}

/// The batch of the rules that are lent, where so many were given: a refused opening is said there.
pub fn answered(opening: Opening, rules: &[Rule], given: usize, out: &mut [u64]) -> Batch
    ensures { Gives (batch_at opening rules.now given (length out.old)) out.old out.new result }
{
    let mut rows = [[0; NUMBERS]; Rule::LIMIT];
    let mut marks: [usize; Sheet::MARKS] = [0; Sheet::MARKS];
    match begin(opening, rules, given, &mut rows, &mut marks) {
        Ok(head) => Batch {
            reply: laid::ask(head, &rows, out),
            place: rules.len(),
        },
        Err(stop) => Batch {
            reply: sheet::refusal(stop.number),
            place: stop.place,
        },
    }
}
