// Words that pass bands and bits, counted section by section, with quotient and remainder: there may be 2^64.

ghost use Rattle.std.specs.Prelude.{◌≡◌, suc, take};
ghost use Rattle.word.specs.Word.{IsWidth, top};
ghost use Rattle.word.specs.Search.{count};
ghost use Rattle.rule.specs.bits.route.Fixed.{Tidy};
ghost use Rattle.search.specs.rows.route.Bands.{Lie, passes};
ghost use Rattle.search.specs.rows.route.Rows.{bands_in};
ghost use Rattle.counting.specs.tally.route.Total.{totals};

use rule::Rule;
use search::rows::{InForce, NUMBERS};

mod adding;

/// How many words there are, as quotient and remainder by `UNIT`.
#[derive(Clone, Copy, PartialEq, Eq)]
pub struct Total {
    pub quotient: u64,
    pub remainder: u64,
}

/// How many words the bands in force hold that have the bits. It looks at no more sections than they can have, whatever the width.
pub fn words(rows: &[[u64; NUMBERS]; Rule::LIMIT], force: InForce) -> Total
    requires width { IsWidth force.width.bits }
    requires lie { Lie (top force.width.bits) force.count (bands_in rows.now) }
    requires tidy { Tidy force.fixed }
    ensures { result ≡ totals (count (passes (take force.count (bands_in rows.now)) force.fixed) (suc (top force.width.bits)) 0) }
{
    let top = force.width.top();
    let most = search::section::most(force.count);
    let mut total = Total::none();
    let mut p = 0;
    for _ in 0..most {
        let section = search::section::at(rows, force.count, top, p);
        if section.held {
            total = total.with(force.fixed, p, section.to);
        }
        if section.to == top {
            return total;
        }
        p = section.to + 1;
    }
    total
}
