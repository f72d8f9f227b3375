// The search for the first word that passes the bands in lent rows and the fixed bits.

ghost use Rattle.std.specs.Prelude.{◌≡◌, suc, ◌-◌, ◌≤◌, take};
ghost use Rattle.word.specs.Word.{IsWidth, top};
ghost use Rattle.word.specs.Search.{first};
ghost use Rattle.rule.specs.bits.route.Fixed.{Tidy};
ghost use Rattle.search.specs.rows.route.Bands.{Lie, all_seen, passes};
ghost use Rattle.search.specs.rows.route.Rows.{bands_in};
ghost use Rattle.search.specs.sweep.route.Walked.{Walks};

use crate::rows::InForce;
use rule::Rule;

// One more than how often all bands are gone through before a leap, which sorts them.
const PATIENCE: usize = 9;

// How a walk ends: at a word that passes, nowhere, or at a word from which a leap is better.
#[derive(Clone, Copy)]
pub enum Walked {
    At(u64),
    Nothing,
    Tired(u64),
}

// The first word from a start on that the bands in force hold and that has the bits, here or on the wheel turned round. Where a walk from run to
// run goes through all bands too often, they are in no order along the wheel, and it leaps once. The walk stands apart from the leap, so that its
// loops stay as small as they are without one.
pub fn sweep(
    rows: &[[u64; crate::rows::NUMBERS]; Rule::LIMIT],
    force: InForce,
    turned: bool,
    start: u64,
) -> Option<u64>
    requires width { IsWidth force.width.bits }
    requires start_bound { (start ≤ top force.width.bits) × Lie (top force.width.bits) force.count (bands_in rows.now) }
    requires tidy { Tidy force.fixed }
    ensures { result ≡ first (passes (all_seen turned (top force.width.bits) (take force.count (bands_in rows.now))) force.fixed) (suc (top force.width.bits) - start) start }
{
    match walk(rows, force, turned, start, PATIENCE) {
        Walked::At(x) => Some(x),
        Walked::Nothing => None,
        Walked::Tired(p) => rested(rows, force, turned, p),
    }
}

// The same after a leap.
fn rested(
    rows: &[[u64; crate::rows::NUMBERS]; Rule::LIMIT],
    force: InForce,
    turned: bool,
    start: u64,
) -> Option<u64>
    requires width { IsWidth force.width.bits }
    requires start_bound { (start ≤ top force.width.bits) × Lie (top force.width.bits) force.count (bands_in rows.now) }
    requires tidy { Tidy force.fixed }
    ensures { result ≡ first (passes (all_seen turned (top force.width.bits) (take force.count (bands_in rows.now))) force.fixed) (suc (top force.width.bits) - start) start }
{
    let Some(p) = crate::leap::leap(rows, force, turned, start) else {
        return None;
    };
    match walk(rows, force, turned, p, 0) {
        Walked::At(x) => Some(x),
        Walked::Nothing => None,
        Walked::Tired(_) => None,
    }
}

// A walk from a start on: it goes from one failing run to the next, never word by word, and leaves both loops as soon as a word fits. Where a band
// failed the bands from the one before it on are looked at first: of rules in a row, up or down the wheel, one of these fails next. The newest band
// is the first of all. With patience it ends where it has gone through all bands so often but one; with 0 it goes on.
fn walk(
    rows: &[[u64; crate::rows::NUMBERS]; Rule::LIMIT],
    force: InForce,
    turned: bool,
    start: u64,
    patience: usize,
) -> Walked
    requires width { IsWidth force.width.bits }
    requires start_bound { (start ≤ top force.width.bits) × Lie (top force.width.bits) force.count (bands_in rows.now) }
    requires tidy { Tidy force.fixed }
    ensures { Walks (all_seen turned (top force.width.bits) (take force.count (bands_in rows.now))) force.fixed (top force.width.bits) start patience result }
{
    let n = force.count;
    let width = force.width;
    let top = width.top();
    let mut found = Walked::Nothing;
    let mut p = start;
    let mut i = fewer(n);
    let mut left = patience;
    'words: loop {
        let Some(x) = force.fixed.next(width, p) else {
            break;
        };
        p = x;
        let q = crate::rows::facing(x, turned, top);
        let mut all = false;
        loop {
            if i < n {
                if crate::rows::fails_at(rows, i, width, q) {
                    let band = crate::rows::band_at(rows, i, turned, top);
                    let reach = band.run(top, p).to;
                    if reach == top {
                        break 'words;
                    }
                    p = reach + 1;
                    i = fewer(i);
                    break;
                }
                i += 1;
            } else if all {
                found = Walked::At(p);
                break 'words;
            } else if left == 1 {
                found = Walked::Tired(p);
                break 'words;
            } else {
                left = fewer(left);
                all = true;
                i = 0;
            }
        }
    }
    found
}

// One less, where there is one.
fn fewer(n: usize) -> usize
    ensures { result ≡ n - 1 }
{
    if 0 < n {
        return n - 1;
    }
    0
}
