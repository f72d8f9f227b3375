// The words that fit a list of rules, listed without a sheet to keep.

ghost use Rattle.std.specs.Prelude.{◌≡◌};
ghost use Rattle.outside.specs.handing.Handed.{opening_of, rules_in};
ghost use Rattle.outside.specs.making.Made.{makes};
ghost use Rattle.outside.specs.on_listings.Listings.{ListedIn};

use crate::handing::NUMBERS;
use crate::list_made::made_of;

/// Lists the words that fit a list of rules, from a start on.
pub fn list(
    width: u64,
    edition: u64,
    rules: &[[u64; NUMBERS]],
    start: u64,
    words: &mut [u64],
    answer: &mut [u64; 2],
) -> u64
    ensures { ListedIn (makes (opening_of width edition) (rules_in rules.now)) start words.old words.new answer.new result }
{
    match made_of(width, edition, rules) {
        Ok(sheet) => {
            let listing = listing::list(sheet, start, words);
            *answer = [listing.written as u64, rules.len() as u64];
            listing.number
        }
        Err(refused) => {
            *answer = [0, refused.place as u64];
            refused.number
        }
    }
}
