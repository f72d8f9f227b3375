// A chain checked against a list of rules, without a sheet to keep.

ghost use Rattle.std.specs.Prelude.{◌≡◌};
ghost use Rattle.outside.specs.handing.Handed.{opening_of, rules_in};
ghost use Rattle.outside.specs.making.Made.{makes};
ghost use Rattle.outside.specs.on_lists.Lists.{check_numbers};

use crate::handing::NUMBERS;
use crate::list_made::made_of;

/// Checks a chain of any maker against a list.
pub fn check(
    width: u64,
    edition: u64,
    rules: &[[u64; NUMBERS]],
    links: &[u64],
    answer: &mut [u64; 2],
) -> u64
    ensures value { result ≡ (makes (opening_of width edition) (rules_in rules.now)).number }
    ensures answer_after { answer.new ≡ check_numbers (makes (opening_of width edition) (rules_in rules.now)) links.now }
{
    match made_of(width, edition, rules) {
        Ok(sheet) => {
            let yes = checker::accepts(sheet, links);
            *answer = [yes as u64, rules.len() as u64];
            0
        }
        Err(refused) => {
            *answer = [false as u64, refused.place as u64];
            refused.number
        }
    }
}
