// The furthest reach from a word: by the order of the bands where there is one, and else by a search over all of them.

ghost use Rattle.std.specs.Prelude.{◌≡◌, true, ◌≤◌, take};
ghost use Rattle.word.specs.Word.{IsWidth, top};
ghost use Rattle.search.specs.rows.route.Bands.{Lie};
ghost use Rattle.search.specs.rows.route.Rows.{bands_in};
ghost use Rattle.chain.specs.route.OnBands.{furthest_band};
ghost use Rattle.search.specs.order.route.Order.{InOrder};
ghost use Rattle.chain.specs.due.route.Due.{Passed, Ready};

use crate::Far;
use crate::due::{Due, Stage};
use rule::Rule;
use word::Width;

// Whether the bands are in order, and how far the walk has come; its place in the order counts only where they are.
#[derive(Clone, Copy)]
pub struct Way {
    pub sorted: bool,
    pub stage: Stage,
}

// The furthest reach from the stage's word of the first n bands: by the order where there is one, and else by a search over all of them.
pub fn find(
    rows: &[[u64; search::rows::NUMBERS]; Rule::LIMIT],
    order: &[usize; Rule::LIMIT],
    n: usize,
    width: Width,
    way: Way,
) -> Due
    requires width { IsWidth width.bits }
    requires lie { Lie (top width.bits) n (bands_in rows.now) }
    requires p_bound { way.stage.p ≤ top width.bits }
    requires in_order { way.sorted ≡ true → InOrder (top width.bits) n (bands_in rows.now) order.now × Ready (top width.bits) n (bands_in rows.now) order.now way.stage.next way.stage.p }
    ensures { (result.far ≡ furthest_band (take n (bands_in rows.now)) (top width.bits) way.stage.p) × (way.sorted ≡ true → Passed (top width.bits) n (bands_in rows.now) order.now result.next way.stage.p) }
{
    if way.sorted {
        return crate::due::furthest(rows, order, n, width.top(), way.stage);
    }
    Due {
        far: furthest(rows, n, width, way.stage.p),
        next: 0,
    }
}

// The furthest reach from p of the first n bands, and that band's number, the lowest on a tie.
pub fn furthest(
    rows: &[[u64; search::rows::NUMBERS]; Rule::LIMIT],
    n: usize,
    width: Width,
    p: u64,
) -> Far
    requires width { IsWidth width.bits }
    requires lie { Lie (top width.bits) n (bands_in rows.now) }
    requires p_bound { p ≤ top width.bits }
    ensures { result ≡ furthest_band (take n (bands_in rows.now)) (top width.bits) p }
{
    let top = width.top();
    let mut far = Far::Nowhere;
    for i in 0..n {
        let band = search::rows::band_at(rows, i, false, top);
        if !band.holds(p) {
            far = far.further(band.run(top, p).to, i as u64);
        }
    }
    far
}
