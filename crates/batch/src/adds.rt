// A list of rules added on a slate one after another, up to the first refusal.

ghost use Rattle.std.specs.Prelude.{◌≡◌, MatchResult, length};
ghost use Rattle.sheet.specs.slate.route.Held.{Held};
ghost use Rattle.sheet.specs.route.Held.{packed};
ghost use Rattle.sheet.specs.Statements.{IsSheet};
ghost use Rattle.batch.specs.adds.route.Course.{Came};
ghost use Rattle.batch.specs.adds.route.Few.{few};

use crate::course::Batch;
use rule::Rule;
use search::rows::NUMBERS;
use sheet::{Head, Sheet, laid};

/// Where a batch is stopped: the number of the first refusal, the head as it is then, and the place at which it is said.
#[derive(Clone, Copy)]
pub struct Stop {
    pub number: u64,
    pub head: Head,
    pub place: usize,
}

/// How many rules of a list are read.
pub fn few(count: usize) -> usize
    ensures { result ≡ few count }
{
    count.min(Batch::MOST)
}

/// Adds the rules in order, up to the first refusal, and gives the head as it is then. The adds are of the sheet's edition.
pub fn add_all(
    head: Head,
    rows: &mut [[u64; NUMBERS]; Rule::LIMIT],
    marks: &mut [usize; Sheet::MARKS],
    rules: &[Rule],
) -> Result<Head, Stop>
    requires { Held head rows.old marks.old × IsSheet (packed head rows.old marks.old) }
    ensures { MatchResult result (λ h. Held h rows.new marks.new × Came head.opening.edition rules.now (packed head rows.old marks.old) (packed h rows.new marks.new) 0 (length rules.now)) (λ s. Held s.head rows.new marks.new × (s.number ≡ 0 → ⊥) × Came head.opening.edition rules.now (packed head rows.old marks.old) (packed s.head rows.new marks.new) s.number s.place) }
{
    let edition = head.opening.edition;
    let mut head = head;
    for (place, rule) in rules.iter().enumerate() {
        let said = laid::add(head, rows, marks, edition, *rule);
        let number = said.number;
        let is_refused = number != 0;
        if is_refused {
            return Err(Stop {
                number,
                head: said.head,
                place,
            });
        }
        head = said.head;
    }
    Ok(head)
}
