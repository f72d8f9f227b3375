// A sheet that a caller outside keeps between calls: its numbers, read into a record, and a record written down again. C can spoil
// memory: any numbers are read, and those that are no sheet's make a record that is none.
#![tactic(auto)]

pub mod bare_calls;
pub mod kept_changes;
mod kept_head;
pub mod kept_numbers;
pub mod kept_put;
mod kept_read;
pub mod on_kept;
pub mod on_sheets;

ghost use Rattle.std.specs.Prelude.{◌≡◌, cond, eqb, length};
ghost use Rattle.keeping.specs.kept_numbers.Numbers.{NUMBERS, numbers_of};
ghost use Rattle.keeping.specs.kept_numbers.route.Reading.{sheet_in};

use crate::kept_head::opening_in;
use crate::kept_put::written;
use crate::kept_read::{marks_in, rules_in};
use search::verdict::Kept;
use sheet::{Answer, Sheet};

pub const NUMBERS: usize = crate::kept_numbers::NUMBERS;

/// The record that the numbers are. They come by value, so that there are as many.
pub fn read(numbers: [u64; NUMBERS]) -> Sheet
    ensures value { result ≡ sheet_in numbers }
    ensures numbers_len { length numbers ≡ NUMBERS }
{
    let opening = opening_in(numbers[0], numbers[1]);
    Sheet {
        width: opening.width,
        rules: rules_in(&numbers),
        count: numbers[2] as usize,
        marks: marks_in(&numbers),
        marked: numbers[3] as usize,
        kept: Kept {
            verdict: numbers[6],
            smallest: numbers[7],
            largest: numbers[8],
        },
        given: numbers[4] as usize,
        waiting: numbers[5] as usize,
        edition: opening.edition,
    }
}

/// Writes the sheet of an answer down where the call was accepted, and answers its number.
#[tactic(auto, using(crate::proofs::SearchKeep::wanted))]
pub fn keep(numbers: &mut [u64; NUMBERS], answer: Answer) -> u64
    ensures value { result ≡ answer.number }
    ensures numbers_after { numbers.new ≡ cond (eqb answer.number 0) (numbers_of answer.sheet) numbers.old }
{
    if answer.number == 0 {
        *numbers = written(answer.sheet);
    }
    answer.number
}
