// What is kept with one rule more: the new rule is looked at first, at the old ends.
ghost use Rattle.std.specs.Prelude.{◌≡◌, take};
ghost use Rattle.search.specs.rows.route.Rows.{bands_in};
ghost use Rattle.search.specs.verdict.route.OnBands.{kept_by};
ghost use Rattle.sheet.specs.slate.slate_add.route.Narrows.{Narrows, stays_so};

use rule::Rule;
use rule::band::Band;
use rule::bits::Fixed;
use search::rows::{InForce, NUMBERS};
use search::verdict::Kept;

// What is kept of the rules in force and their bits, the last of which has this band: what was kept before where that rule moves nothing,
// and else what is found from the old ends.
pub fn narrowed(
    rows: &[[u64; NUMBERS]; Rule::LIMIT],
    force: InForce,
    band: Band,
    before: Kept,
) -> Kept
    requires { Narrows force.width.bits force.count (bands_in rows.now) band force.fixed before }
    ensures { result ≡ kept_by force.width.bits (take force.count (bands_in rows.now)) force.fixed }
{
    if stays(before, band, force.fixed) {
        return before;
    }
    search::verdict::laid::narrowed(rows, force, before)
}

// Whether the band holds both ends of what was kept before and they have the bits.
#[tactic(auto, unfolding(crate::specs::slate::slate_add::route::Narrows::stays_so))]
fn stays(before: Kept, band: Band, fixed: Fixed) -> bool
    ensures { result ≡ stays_so before band fixed }
{
    before.verdict != 0
        && band.holds(before.smallest)
        && band.holds(before.largest)
        && fixed.has(before.smallest)
        && fixed.has(before.largest)
}
