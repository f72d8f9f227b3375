// What the reason of a link shows of its words: the first clause on it that does not hold.

ghost use Rattle.std.specs.Prelude.{◌≡◌, suc, ◌-◌, ◌≤◌, take};
ghost use Rattle.word.specs.Word.{IsWidth, top};
ghost use Rattle.word.specs.Search.{first};
ghost use Rattle.rule.specs.band.route.Band.{Laid, holds};
ghost use Rattle.rule.specs.bits.route.Fixed.{Tidy, has_bits};
ghost use Rattle.search.specs.rows.route.Bands.{Lie};
ghost use Rattle.search.specs.rows.route.OfRules.{OfLawful};
ghost use Rattle.search.specs.rows.route.Rows.{bands_in, rules_in};
ghost use Rattle.checker.specs.finding.Clauses.{first_broken, reason_clauses};

use crate::finding::Breach;
use chain::Link;
use rule::Rule;
use rule::band::Band;
use rule::bits::Fixed;
use search::rows::{InForce, NUMBERS};
use word::Width;

// The smallest word from one to another that a band holds: the first, or the one after the run of failing words around it.
fn held(band: Band, top: u64, from: u64, to: u64) -> Option<u64>
    requires { (Laid top band) × (from ≤ to) × (to ≤ top) }
    ensures { result ≡ first (holds band) (suc to - from) from }
{
    if band.holds(from) {
        return Some(from);
    }
    let end = band.run(top, from).to;
    if to <= end {
        return None;
    }
    Some(end + 1)
}

// The smallest word from one to another that has the bits: the next one, where it comes no later.
fn having(fixed: Fixed, width: Width, from: u64, to: u64) -> Option<u64>
    requires width { IsWidth width.bits }
    requires tidy { Tidy fixed × (from ≤ to) × (to ≤ top width.bits) }
    ensures { result ≡ first (has_bits fixed) (suc to - from) from }
{
    let Some(next) = fixed.next(width, from) else {
        return None;
    };
    if to < next {
        return None;
    }
    Some(next)
}

/// The clauses on the reason of a link that lies as it may.
pub fn shows(
    link: Link,
    number: usize,
    rows: &[[u64; NUMBERS]; Rule::LIMIT],
    force: InForce,
) -> Result<(), Breach>
    requires width { IsWidth force.width.bits }
    requires lie { Lie (top force.width.bits) force.count (bands_in rows.now) }
    requires of_lawful { OfLawful force.width.bits (take force.count (bands_in rows.now)) force.fixed (take force.count (rules_in rows.now)) }
    requires tidy { Tidy force.fixed × (link.from ≤ link.to) × (link.to ≤ top force.width.bits) }
    ensures { result ≡ first_broken (reason_clauses force.width.bits (take force.count (rules_in rows.now)) number link) }
{
    let reason = link.reason;
    if reason < force.count as u64 {
        let place = reason as usize;
        let top = force.width.top();
        let band = search::rows::band_at(rows, place, false, top);
        // the band of a form 7 rule holds every word, so that the form is looked at only where a word is found
        let Some(word) = held(band, top, link.from, link.to) else {
            return Ok(());
        };
        if search::rows::rule_at(rows, place).form == 7 {
            return Err(Breach::BitRule { link: number });
        }
        return Err(Breach::MeetsRule { link: number, word });
    }
    let is_no_rule = reason != Link::BITS;
    if is_no_rule {
        return Err(Breach::NoRule { link: number });
    }
    let Some(word) = having(force.fixed, force.width, link.from, link.to) else {
        return Ok(());
    };
    Err(Breach::MeetsBits { link: number, word })
}
