// A leap over many runs of words that fail: each band is looked at once, in the order in which the later runs start. The order is sorted and
// nobody proves that it is one: whatever it is, no word that passes is leapt over.

ghost use Rattle.std.specs.Prelude.{◌≤◌, take};
ghost use Rattle.word.specs.Word.{IsWidth, top};
ghost use Rattle.rule.specs.bits.route.Fixed.{Tidy};
ghost use Rattle.search.specs.rows.route.Bands.{Lie, all_seen};
ghost use Rattle.search.specs.rows.route.Rows.{bands_in};
ghost use Rattle.search.specs.leap.route.Leapt.{Leapt};

use crate::rows::InForce;
use rule::Rule;

// From a word to one before which none passes the bands in force and the bits, here or on the wheel turned round, or to nothing where none
// does.
pub fn leap(
    rows: &[[u64; crate::rows::NUMBERS]; Rule::LIMIT],
    force: InForce,
    turned: bool,
    start: u64,
) -> Option<u64>
    requires width { IsWidth force.width.bits }
    requires start_bound { (start ≤ top force.width.bits) × Lie (top force.width.bits) force.count (bands_in rows.now) }
    requires tidy { Tidy force.fixed }
    ensures { Leapt (all_seen turned (top force.width.bits) (take force.count (bands_in rows.now))) force.fixed (top force.width.bits) start result }
{
    let n = force.count;
    let mut order: [usize; Rule::LIMIT] = [0; Rule::LIMIT];
    crate::order::sort(rows, n, turned, force.width.top(), &mut order);
    let mut p = start;
    for k in 0..n {
        let Some(q) = past(rows, force, turned, order[k], p) else {
            return None;
        };
        p = q;
    }
    Some(p)
}

// Past the words before the next one that has the bits and, where the band of a number fails that one, past the run of words that it fails there.
fn past(
    rows: &[[u64; crate::rows::NUMBERS]; Rule::LIMIT],
    force: InForce,
    turned: bool,
    number: usize,
    p: u64,
) -> Option<u64>
    requires width { IsWidth force.width.bits }
    requires p_bound { (p ≤ top force.width.bits) × Lie (top force.width.bits) force.count (bands_in rows.now) }
    requires tidy { Tidy force.fixed }
    ensures { Leapt (all_seen turned (top force.width.bits) (take force.count (bands_in rows.now))) force.fixed (top force.width.bits) p result }
{
    let top = force.width.top();
    if force.count <= number {
        return Some(p);
    }
    let Some(x) = force.fixed.next(force.width, p) else {
        return None;
    };
    let band = crate::rows::band_at(rows, number, turned, top);
    if band.holds(x) {
        return Some(x);
    }
    let reach = band.run(top, x).to;
    if reach == top {
        return None;
    }
    Some(reach + 1)
}
