// One link: where it starts and ends, and why.

ghost use Rattle.std.specs.Prelude.{◌≡◌, ◌≤◌};
ghost use Rattle.word.specs.Word.{IsWidth, top};
ghost use Rattle.rule.specs.bits.route.Fixed.{Tidy};
ghost use Rattle.search.specs.rows.route.Rows.{bands_in};
ghost use Rattle.chain.specs.route.OnBands.{gap_on};
ghost use Rattle.chain.specs.link_step.route.Step.{Reached, link_to};

use crate::{Far, Link};
use rule::Rule;
use rule::bits::Fixed;
use word::Width;

// The link at p by the furthest reach that was found. Where it names a rule it starts where that rule's run of failing words starts.
pub fn link_at(
    rows: &[[u64; search::rows::NUMBERS]; Rule::LIMIT],
    fixed: Fixed,
    width: Width,
    p: u64,
    far: Far,
) -> Link
    requires width { IsWidth width.bits }
    requires tidy { Tidy fixed × (p ≤ top width.bits) }
    requires reached { Reached (top width.bits) p (bands_in rows.now) far }
    ensures { result ≡ link_to (bands_in rows.now) fixed (top width.bits) p far }
{
    let Far::To { reach, rule } = far else {
        return Link {
            from: p,
            to: gap(fixed, width, p),
            reason: Link::BITS,
        };
    };
    let top = width.top();
    let band = search::rows::band_at(rows, rule as usize, false, top);
    let run = band.run(top, p);
    Link {
        from: run.from,
        to: reach,
        reason: rule,
    }
}

// The last word before the next one above p that has the bits, or the top word where there is none.
pub fn gap(fixed: Fixed, width: Width, p: u64) -> u64
    requires width { IsWidth width.bits }
    requires tidy { Tidy fixed × (p ≤ top width.bits) }
    ensures { result ≡ gap_on fixed (top width.bits) p }
{
    let top = width.top();
    if p == top {
        return top;
    }
    let Some(x) = fixed.next(width, p + 1) else {
        return top;
    };
    x - 1
}
