//! The batch call: an opening, a lent list of rules and a chain buffer, answered as the calls one by one would be.
#![tactic(auto)]

pub mod adds;
pub mod begun;
pub mod course;
pub mod few_rules;

ghost use Rattle.batch.specs.course.Batch.{Batched};

pub use crate::course::{Batch, beginning};
pub use crate::few_rules::first;
use page::Opening;
use rule::Rule;

/// Opens a sheet, adds each rule in order and asks, up to the first refusal. The adds are of the opening's edition. The rule after as
/// many as a sheet takes is refused, so that no rule past it is read.
pub fn run(opening: Opening, rules: &[Rule], out: &mut [u64]) -> Batch
    ensures { Batched opening rules.now out.old out.new result }
{
    crate::course::answered(opening, rules, rules.len(), out)
}
