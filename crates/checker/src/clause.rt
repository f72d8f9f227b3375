// Why the check of a chain says no: the first clause of the paper that does not hold of a sheet and a list of links.

ghost use Rattle.std.specs.Prelude.{true, ◌↔◌, ◌≡◌};
ghost use Rattle.std.specs.Result.{is_ok};
ghost use Rattle.checker.specs.Accepted.{Accepted};
ghost use Rattle.checker.specs.Check.{accepts};
ghost use Rattle.checker.specs.clause.Finding.{finding};

use crate::finding::Breach;
use rule::Rule;
use search::rows::{InForce, NUMBERS};
use sheet::Sheet;
use word::Width;

/// The first clause that the links, three numbers each, do not keep: any record, and any numbers. All hold just where the check says yes.
pub fn first(sheet: Sheet, links: &[u64]) -> Result<(), Breach>
    ensures value { result ≡ finding sheet links.now }
    ensures result_value { is_ok result ≡ accepts sheet links.now }
    ensures accepted { is_ok result ≡ true ↔ Accepted sheet links.now }
{
    let mut rows = [[0; NUMBERS]; Rule::LIMIT];
    let head = sheet::laid_rows::lay_out(sheet, &mut rows);
    let bits = head.opening.width;
    crate::outset::found(head.stands, bits == 0, links.len())?;
    let force = InForce {
        count: head.counts.count,
        fixed: head.fixed,
        width: Width { bits },
    };
    crate::breach::first(links, &rows, force)
}
