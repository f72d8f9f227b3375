// The band of furthest reach found by the order of the bands: after a link only bands whose later run has started since then can fail, so
// that each is looked at once in a whole chain.

ghost use Rattle.std.specs.Prelude.{◌≡◌, ◌≤◌, take};
ghost use Rattle.search.specs.rows.route.Bands.{Lie};
ghost use Rattle.search.specs.rows.route.Rows.{bands_in};
ghost use Rattle.chain.specs.route.OnBands.{furthest_band};
ghost use Rattle.search.specs.order.route.Order.{InOrder};
ghost use Rattle.chain.specs.due.route.Due.{Passed, Ready, better};

use crate::Far;
use rule::Rule;

// How far a walk by the order has come: to a word, and to the place in the order that is next.
#[derive(Clone, Copy)]
pub struct Stage {
    pub p: u64,
    pub next: usize,
}

// The furthest reach, and the place in the order up to which bands were looked at.
#[derive(Clone, Copy)]
pub struct Due {
    pub far: Far,
    pub next: usize,
}

// The furthest reach from the stage's word of the first n bands, where those before its place in the order hold that word and no run around
// it starts at 0.
pub fn furthest(
    rows: &[[u64; search::rows::NUMBERS]; Rule::LIMIT],
    order: &[usize; Rule::LIMIT],
    n: usize,
    top: u64,
    stage: Stage,
) -> Due
    requires lie { Lie top n (bands_in rows.now) }
    requires p_le_top { stage.p ≤ top }
    requires in_order { InOrder top n (bands_in rows.now) order.now }
    requires ready { Ready top n (bands_in rows.now) order.now stage.next stage.p }
    ensures { (result.far ≡ furthest_band (take n (bands_in rows.now)) top stage.p) × Passed top n (bands_in rows.now) order.now result.next stage.p }
{
    let mut far = Far::Nowhere;
    let p = stage.p;
    let mut k = stage.next;
    while k < n {
        let i = order[k];
        let band = search::rows::band_at(rows, i, false, top);
        if p <= search::order::eve(band, top) {
            return Due { far, next: k };
        }
        if !band.holds(p) {
            far = better(far, band.run(top, p).to, i as u64);
        }
        k += 1;
    }
    Due { far, next: k }
}

// The further of two reaches, the one with the lower number on a tie: by the order numbers do not rise.
#[tactic(auto, using(crate::proofs::due::SearchBetter::wanted), unfolding(crate::specs::due::route::Due::better))]
fn better(far: Far, reach: u64, rule: u64) -> Far
    ensures { result ≡ better far reach rule }
{
    let Far::To {
        reach: best,
        rule: number,
    } = far
    else {
        return Far::To { reach, rule };
    };
    if best < reach {
        return Far::To { reach, rule };
    }
    if reach < best {
        return far;
    }
    if rule < number {
        return Far::To { reach, rule };
    }
    far
}
