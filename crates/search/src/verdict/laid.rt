// The verdict found on bands that are laid in lent rows, swept as often as is asked: nothing is copied on the way.
ghost use Rattle.std.specs.Prelude.{◌≡◌, take};
ghost use Rattle.word.specs.Word.{IsWidth, top};
ghost use Rattle.rule.specs.bits.route.Fixed.{Tidy, Within};
ghost use Rattle.search.specs.rows.route.Bands.{Lie};
ghost use Rattle.search.specs.rows.route.Rows.{bands_in};
ghost use Rattle.search.specs.verdict.Kept.{keeps};
ghost use Rattle.search.specs.verdict.route.OnBands.{Bounds, Ends, kept_by};

use crate::rows::InForce;
use crate::verdict::Kept;
use rule::Rule;
use rule::band::Run;

// What is kept where no word passes.
fn none() -> Kept
    ensures { result ≡ keeps 0 0 0 }
{
    Kept {
        verdict: 0,
        smallest: 0,
        largest: 0,
    }
}

// What is kept of the bands in force and the bits, where no word before these passes and none after them. The largest word that
// passes is the smallest on the wheel turned round, turned back.
pub fn solve(rows: &[[u64; crate::rows::NUMBERS]; Rule::LIMIT], force: InForce, words: Run) -> Kept
    requires width { IsWidth force.width.bits }
    requires lie { Lie (top force.width.bits) force.count (bands_in rows.now) }
    requires tidy { Tidy force.fixed × Within force.width.bits force.fixed }
    requires ends { Ends force.width.bits (take force.count (bands_in rows.now)) force.fixed words.from words.to }
    ensures { result ≡ kept_by force.width.bits (take force.count (bands_in rows.now)) force.fixed }
{
    let Some(smallest) = crate::sweep::sweep(rows, force, false, words.from) else {
        return none();
    };
    let top = force.width.top();
    let mirrored = InForce {
        count: force.count,
        fixed: force.fixed.turned(),
        width: force.width,
    };
    let Some(last) = crate::sweep::sweep(rows, mirrored, true, top - words.to) else {
        return none();
    };
    let largest = top - last;
    let verdict = if smallest == largest { 1 } else { 2 };
    Kept {
        verdict,
        smallest,
        largest,
    }
}

// What is kept once there are more rules, from what was kept before: none stays none, and the search starts at the old ends.
pub fn narrowed(
    rows: &[[u64; crate::rows::NUMBERS]; Rule::LIMIT],
    force: InForce,
    before: Kept,
) -> Kept
    requires width { IsWidth force.width.bits }
    requires lie { Lie (top force.width.bits) force.count (bands_in rows.now) }
    requires tidy { Tidy force.fixed × Within force.width.bits force.fixed }
    requires bounds { Bounds force.width.bits (take force.count (bands_in rows.now)) force.fixed before }
    ensures { result ≡ kept_by force.width.bits (take force.count (bands_in rows.now)) force.fixed }
{
    let is_none = before.verdict == 0;
    if is_none {
        return none();
    }
    let ends = Run {
        from: before.smallest,
        to: before.largest,
    };
    solve(rows, force, ends)
}
