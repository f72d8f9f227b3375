// The head of the numbers that a caller keeps, before the marks and the rules: its opening read, and that of a record.

ghost use Rattle.std.specs.Prelude.{◌≡◌};
ghost use Rattle.keeping.specs.kept_numbers.Numbers.{head_of, number_of};
ghost use Rattle.keeping.specs.kept_numbers.route.Reading.{opening_in};

use crate::kept_numbers::HEAD;
use outside::handing::opening;
use page::Opening;
use sheet::Sheet;
use word::Edition;

/// The width and the edition. Where the edition's number is none, the width is 0: a record of the new edition without a width is no sheet.
#[tactic(auto, using(crate::proofs::kept_head::SearchOpeningIn::wanted))]
pub fn opening_in(width: u64, edition: u64) -> Opening
    ensures { result ≡ opening_in width edition }
{
    if 1 < edition {
        return opening(0, edition);
    }
    opening(width, edition)
}

/// The numbers of a record that lie before its marks and its rules.
pub fn head_of(sheet: Sheet) -> [u64; HEAD]
    ensures { result ≡ head_of sheet }
{
    let kept = sheet.kept;
    [
        sheet.width,
        number_of(sheet.edition),
        sheet.count as u64,
        sheet.marked as u64,
        sheet.given as u64,
        sheet.waiting as u64,
        kept.verdict,
        kept.smallest,
        kept.largest,
    ]
}

/// The number of an edition.
#[tactic(auto, unfolding(crate::specs::kept_numbers::Numbers::number_of))]
fn number_of(edition: Edition) -> u64
    ensures { result ≡ number_of edition }
{
    edition as u64
}
