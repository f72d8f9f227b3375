// The words that fit a list of rules, counted without a sheet to keep.

ghost use Rattle.std.specs.Prelude.{◌≡◌};
ghost use Rattle.outside.specs.handing.Handed.{opening_of, rules_in};
ghost use Rattle.outside.specs.making.Made.{makes};
ghost use Rattle.outside.specs.on_counts.Counts.{count_numbers, share_in};

use crate::handing::NUMBERS;
use crate::list_made::made_of;

/// Counts the words that fit a list.
pub fn count(width: u64, edition: u64, rules: &[[u64; NUMBERS]], answer: &mut [u64; 3]) -> u64
    ensures value { result ≡ (share_in (makes (opening_of width edition) (rules_in rules.now))).number }
    ensures answer_after { answer.new ≡ count_numbers (makes (opening_of width edition) (rules_in rules.now)) }
{
    match made_of(width, edition, rules) {
        Ok(sheet) => {
            let share = counting::count(sheet);
            *answer = [share.quotient, share.remainder, rules.len() as u64];
            share.number
        }
        Err(refused) => {
            *answer = [0, 0, refused.place as u64];
            refused.number
        }
    }
}
