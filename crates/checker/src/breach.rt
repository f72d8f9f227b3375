// Why a list of links is no chain: the first clause of the paper that does not hold, found by bands and bits and never word by word.

ghost use Rattle.std.specs.Prelude.{◌≡◌, ◌%◌, length, take};
ghost use Rattle.word.specs.Word.{IsWidth, top};
ghost use Rattle.rule.specs.bits.route.Fixed.{Tidy};
ghost use Rattle.search.specs.rows.route.Bands.{Lie};
ghost use Rattle.search.specs.rows.route.OfRules.{OfLawful};
ghost use Rattle.search.specs.rows.route.Rows.{bands_in, rules_in};
ghost use Rattle.checker.specs.covering.Check.{links_in};
ghost use Rattle.checker.specs.finding.Clauses.{first_broken, list_clauses};

use crate::finding::{Breach, lies};
use crate::reason::shows;
use chain::Link;
use rule::Rule;
use search::rows::{InForce, NUMBERS};

/// The first clause that links do not keep, link by link: where the link lies, then its reason, and at last whether the top word is
/// reached. A link costs a few comparisons and, for the bits, one look for the next word that has them.
pub fn first(
    links: &[u64],
    rows: &[[u64; NUMBERS]; Rule::LIMIT],
    force: InForce,
) -> Result<(), Breach>
    requires width { IsWidth force.width.bits }
    requires lie { Lie (top force.width.bits) force.count (bands_in rows.now) }
    requires of_lawful { OfLawful force.width.bits (take force.count (bands_in rows.now)) force.fixed (take force.count (rules_in rows.now)) }
    requires tidy { Tidy force.fixed × (length links.now % 3 ≡ 0) }
    ensures { result ≡ first_broken (list_clauses force.width.bits (take force.count (rules_in rows.now)) 0 0 (links_in links.now)) }
{
    let top = force.width.top();
    let (links, _) = links.as_chunks::<{ Link::NUMBERS }>();
    let mut end = 0;
    for (number, numbers) in links.iter().enumerate() {
        let link = chain::link_from(numbers, 0);
        lies(link, number, end, top)?;
        shows(link, number, rows, force)?;
        end = end.max(link.to);
    }
    if end == top {
        Ok(())
    } else {
        Err(Breach::Short)
    }
}
