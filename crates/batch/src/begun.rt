// A batch on its slate before it is asked: the blank sheet is laid out, opened and given each rule in order, up to the first refusal.

ghost use Rattle.std.specs.Prelude.{◌≡◌, MatchResult, length};
ghost use Rattle.sheet.specs.slate.route.Held.{Held, Room};
ghost use Rattle.sheet.specs.route.Held.{packed};
ghost use Rattle.batch.specs.begun.route.Begun.{Begun};

use crate::adds::{Stop, add_all};
use page::Opening;
use rule::Rule;
use search::rows::NUMBERS;
use sheet::{Head, Sheet, laid};

/// Opens the blank sheet and adds the rules, up to the first refusal. A refused opening is said at how many rules were given.
pub fn begin(
    opening: Opening,
    rules: &[Rule],
    given: usize,
    rows: &mut [[u64; NUMBERS]; Rule::LIMIT],
    marks: &mut [usize; Sheet::MARKS],
) -> Result<Head, Stop>
    requires { Room rows.old marks.old }
    ensures { MatchResult result (λ h. Held h rows.new marks.new × Begun opening rules.now given (packed h rows.new marks.new) 0 (length rules.now)) (λ s. Held s.head rows.new marks.new × (s.number ≡ 0 → ⊥) × Begun opening rules.now given (packed s.head rows.new marks.new) s.number s.place) }
{
    let head = laid::lay_out(Sheet::blank(), rows, marks);
    let said = laid::open(head, rows, marks, opening);
    let number = said.number;
    let is_refused = number != 0;
    if is_refused {
        return Err(Stop {
            number,
            head: said.head,
            place: given,
        });
    }
    add_all(said.head, rows, marks, rules)
}
