// A chain that somebody else wrote, checked: whether its links show that no word fits the sheet.
#![tactic(auto)]

pub mod breach;
pub mod clause;
pub mod finding;
pub mod outset;
pub mod reason;

ghost use Rattle.std.specs.Prelude.{true, ◌↔◌, ◌≡◌};
ghost use Rattle.checker.specs.Accepted.{Accepted};
ghost use Rattle.checker.specs.Check.{accepts};

use sheet::Sheet;

/// Whether the links, three numbers each, are a chain of the sheet: any record, and any numbers.
#[tactic(auto, using(crate::proofs::SearchAccepts::wanted))]
pub fn accepts(sheet: Sheet, links: &[u64]) -> bool
    ensures value { result ≡ accepts sheet links.now }
    ensures variant { result ≡ true ↔ Accepted sheet links.now }
{
    // an empty list shows nothing, whatever the sheet
    !links.is_empty() && clause::first(sheet, links).is_ok()
}
