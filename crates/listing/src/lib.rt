// Which words fit a sheet: from a given word upward, as many as a lent buffer holds.
#![tactic(auto)]

pub mod blaming;
pub mod failed_rules;
pub mod filling;
pub mod putting;

ghost use Rattle.std.specs.Prelude.{◌≡◌};
ghost use Rattle.listing.specs.Listed.{Listed, listings};

use rule::Rule;
use search::rows::NUMBERS;
use sheet::Sheet;

/// What a listing answers: 0 or the number of a refusal, and how many words were written.
// The number stands beside the count, since the calls for other languages hand both on as they are.
#[derive(Clone, Copy, PartialEq, Eq)]
pub struct Listing {
    pub number: u64,
    pub written: usize,
}

impl Listing {
    // A refusal: its number, and nothing written.
    fn refused(number: u64) -> Listing
        ensures { result ≡ listings number 0 }
    {
        Listing { number, written: 0 }
    }
}

/// Lists the words that fit the sheet from a start on. A refusal touches nothing.
pub fn list(sheet: Sheet, start: u64, out: &mut [u64]) -> Listing
    ensures { Listed sheet start out.old out.new result }
{
    let mut rows = [[0; NUMBERS]; Rule::LIMIT];
    let found = sheet::laid_force::look(sheet, &mut rows);
    let is_refused = 0 < found.number;
    if is_refused {
        return Listing::refused(found.number);
    }
    let is_high = found.force.width.top() < start;
    if is_high {
        return Listing::refused(5);
    }
    let written = filling::fill(&rows, found.force, start, out);
    Listing { number: 0, written }
}
