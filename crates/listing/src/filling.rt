// Words that pass bands and bits, written into a lent buffer in rising order, section by section.

ghost use Rattle.std.specs.Prelude.{◌≡◌, ◌≤◌, length};
ghost use Rattle.word.specs.Word.{IsWidth, top};
ghost use Rattle.rule.specs.bits.route.Fixed.{Tidy};
ghost use Rattle.search.specs.rows.route.Bands.{Lie};
ghost use Rattle.search.specs.rows.route.Rows.{bands_in};
ghost use Rattle.counting.specs.fitting.Words.{at_start};
ghost use Rattle.listing.specs.filling.route.Filled.{words_in};

use rule::Rule;
use search::rows::{InForce, NUMBERS};

/// Writes the words from a start on that the bands in force hold and that have the bits, as many as the buffer holds, and says how many.
/// It looks at no more sections than there can be.
pub fn fill(
    rows: &[[u64; NUMBERS]; Rule::LIMIT],
    force: InForce,
    start: u64,
    out: &mut [u64],
) -> usize
    requires width { IsWidth force.width.bits }
    requires start_bound { (start ≤ top force.width.bits) × Lie (top force.width.bits) force.count (bands_in rows.now) }
    requires tidy { Tidy force.fixed }
    ensures value { result ≡ length (words_in rows.now force start (length out.old)) }
    ensures out_after { out.new ≡ at_start (words_in rows.now force start (length out.old)) out.old }
{
    let n = force.count;
    let top = force.width.top();
    let most = search::section::most(n);
    let mut p = start;
    let mut at = 0;
    for _ in 0..most {
        let section = search::section::at(rows, n, top, p);
        at = crate::putting::put_section(section, force, p, out, at);
        if section.to == top {
            return at;
        }
        if at == out.len() {
            return at;
        }
        p = section.to + 1;
    }
    at
}
