// How many words fit a sheet: any record, counted by sections of words, never word by word.
#![tactic(auto)]

pub mod audit;
pub mod fitting;
pub mod tally;

ghost use Rattle.counting.specs.Counted.{Counted};

use rule::Rule;
use search::rows::NUMBERS;
use sheet::Sheet;

/// What a count answers: 0 or the number of a refusal, and how many words fit as quotient and remainder by 2^32, since a free word of
/// 64 bits has 2^64.
// The number stands beside the count, since the calls for other languages hand all three on as they are.
#[derive(Clone, Copy, PartialEq, Eq)]
pub struct Share {
    pub number: u64,
    pub quotient: u64,
    pub remainder: u64,
}

/// Counts the words that fit the sheet.
pub fn count(sheet: Sheet) -> Share
    ensures { Counted sheet result }
{
    let mut rows = [[0; NUMBERS]; Rule::LIMIT];
    let found = sheet::laid_force::look(sheet, &mut rows);
    let is_refused = 0 < found.number;
    if is_refused {
        return Share {
            number: found.number,
            quotient: 0,
            remainder: 0,
        };
    }
    let total = tally::words(&rows, found.force);
    Share {
        number: 0,
        quotient: total.quotient,
        remainder: total.remainder,
    }
}
