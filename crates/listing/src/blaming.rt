// Which rules in force a word fails, on any record.

ghost use Rattle.listing.specs.blaming.Blamed.{Blamed};

use crate::Listing;
use crate::failed_rules::put_failed;
use sheet::Sheet;
use word::Width;

/// Writes the numbers of the rules in force that the word fails, in rising order, and says how many. A refusal touches nothing.
pub fn why(sheet: Sheet, x: u64, out: &mut [u64]) -> Listing
    ensures { Blamed sheet x out.old out.new result }
{
    if !sheet.is_sheet() {
        return Listing::refused(17);
    }
    if sheet.width == 0 {
        return Listing::refused(1);
    }
    let width = Width { bits: sheet.width };
    let is_high = width.top() < x;
    if is_high {
        return Listing::refused(5);
    }
    let is_short = out.len() < sheet.count;
    if is_short {
        return Listing::refused(9);
    }
    let written = put_failed(&sheet.rules[..sheet.count], width, x, out);
    Listing { number: 0, written }
}
