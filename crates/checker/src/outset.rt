// What is found of a record and of the length of a list, before any of its links is looked at.

ghost use Rattle.std.specs.Prelude.{◌≡◌};
ghost use Rattle.checker.specs.finding.Clauses.{first_broken};
ghost use Rattle.checker.specs.outset.route.Outset.{outset_clauses};

use crate::finding::Breach;
use chain::Link;

/// Whether the record is a sheet, whether it is blank, and how many numbers the list has: all is well where links are to be looked at.
#[tactic(auto, using(crate::proofs::outset::SearchFound::wanted), unfolding(crate::specs::finding::Clauses::first_broken, crate::specs::outset::route::Outset::outset_clauses))]
pub fn found(stands: bool, blank: bool, numbers: usize) -> Result<(), Breach>
    ensures { result ≡ first_broken (outset_clauses stands blank numbers) }
{
    if !stands || blank {
        return Err(Breach::NoSheet);
    }
    if numbers == 0 {
        return Err(Breach::Empty);
    }
    if numbers % Link::NUMBERS != 0 {
        return Err(Breach::Ragged);
    }
    Ok(())
}
