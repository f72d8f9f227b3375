// The batch call on the first rules of an array.

ghost use Rattle.std.specs.Prelude.{take};
ghost use Rattle.batch.specs.course.Batch.{Batched};

use crate::adds::few;
use crate::course::{Batch, answered};
use page::Opening;
use rule::Rule;

/// The batch call on the first rules of an array. A count above the array's length is that length.
pub fn first(opening: Opening, rules: [Rule; Batch::MOST], count: usize, out: &mut [u64]) -> Batch
    ensures { Batched opening (take count rules) out.old out.new result }
{
    let given = few(count);
    answered(opening, &rules[..given], given, out)
}
