// The links of the chain found on bands in lent rows, and written one after another.

ghost use Rattle.std.specs.Prelude.{◌≡◌, List, ◌++◌, ◌*◌, ◌≤◌, drop, length, take};
ghost use Rattle.word.specs.Word.{IsWidth, top};
ghost use Rattle.rule.specs.declared.Rule.{Rule as RuleOf};
ghost use Rattle.search.specs.rows.route.Bands.{Lie};
ghost use Rattle.search.specs.rows.route.OfRules.{OfLawful};
ghost use Rattle.search.specs.rows.route.Rows.{bands_in};
ghost use Rattle.search.specs.verdict.Kept.{kept};
ghost use Rattle.chain.specs.Links.{chain_room, links, numbers_of};

use crate::Link;
use crate::due::Stage;
use crate::reach::Way;
use rule::Rule;
use rule::bits::Fixed;
use word::Width;

// A chain of no more links than these is found without sorting the bands.
const SHORT: usize = 12;

// Writes the chain of the first n bands and the bits, which no word passes, three numbers a link, and says how many links it has.
pub fn write(
    rows: &[[u64; search::rows::NUMBERS]; Rule::LIMIT],
    n: usize,
    fixed: Fixed,
    width: Width,
    out: &mut [u64],
) -> usize
    requires width { IsWidth width.bits }
    requires lie { Lie (top width.bits) n (bands_in rows.now) }
    requires of_lawful { (rs : List RuleOf) × OfLawful width.bits (take n (bands_in rows.now)) fixed rs × ((kept width.bits rs).verdict ≡ 0) }
    requires n_in_bounds { chain_room n ≤ length out.old }
    ensures { (rs : List RuleOf) → OfLawful width.bits (take n (bands_in rows.now)) fixed rs → (kept width.bits rs).verdict ≡ 0 → (result ≡ length (links width.bits rs)) × (out.new ≡ numbers_of (links width.bits rs) ++ drop (3 * result) out.old) }
{
    let top = width.top();
    let mut order: [usize; Rule::LIMIT] = [0; Rule::LIMIT];
    let mut sorted = false;
    let mut next = 0;
    let mut count = 0;
    let mut p = 0;
    loop {
        if count == SHORT {
            sorted = search::order::lay(rows, n, top, &mut order);
            next = 0;
        }
        let stage = Stage { p, next };
        let due = crate::reach::find(rows, &order, n, width, Way { sorted, stage });
        let link = crate::link_step::link_at(rows, fixed, width, p, due.far);
        crate::put(out, Link::NUMBERS * count, link);
        count += 1;
        if link.to == top {
            break;
        }
        p = link.to + 1;
        next = due.next;
    }
    count
}
