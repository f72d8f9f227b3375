// Words one after another that one look at the bands tells of: all bands hold each of them, or one band fails each of them.

ghost use Rattle.std.specs.Prelude.{◌≡◌, true, ◌*◌, ◌-◌, ◌≤◌, take};
ghost use Rattle.rule.specs.Meaning.{RULES};
ghost use Rattle.word.specs.Search.{climb};
ghost use Rattle.rule.specs.band.route.Band.{Laid, holds};
ghost use Rattle.search.specs.rows.route.Bands.{Lie};
ghost use Rattle.search.specs.rows.route.Rows.{bands_in};
ghost use Rattle.search.specs.section.route.Section.{section_at};
ghost use Rattle.search.specs.section.route.Turns.{most_sections};
ghost use Rattle.search.specs.section.route.Sides.{fails};

use rule::Rule;
use rule::band::Band;

// Whether the bands hold the words of a section, and its last word.
#[derive(Clone, Copy)]
pub struct Section {
    pub held: bool,
    pub to: u64,
}

// The section from p on, by the first n bands: to the end of the run of the first band that fails p, or where none does to the last
// word before one of them stops to hold.
pub fn at(rows: &[[u64; crate::rows::NUMBERS]; Rule::LIMIT], n: usize, top: u64, p: u64) -> Section
    requires { (p ≤ top) × Lie top n (bands_in rows.now) }
    ensures { result ≡ section_at top (take n (bands_in rows.now)) p }
{
    let mut end = top;
    for i in 0..n {
        let band = crate::rows::band_at(rows, i, false, top);
        if !band.holds(p) {
            return Section {
                held: false,
                to: band.run(top, p).to,
            };
        }
        let last = last_held(band, top, p);
        let is_nearer = last < end;
        if is_nearer {
            end = last;
        }
    }
    Section {
        held: true,
        to: end,
    }
}

// The last word up to which the band holds from p on: the run around p of the band whose other side fails.
fn last_held(band: Band, top: u64, p: u64) -> u64
    requires { (Laid top band) × (p ≤ top) × (holds band p ≡ true) }
    ensures { result ≡ climb (fails band) (top - p) p }
{
    let other = Band {
        from: band.from,
        to: band.to,
        inside: !band.inside,
    };
    other.run(top, p).to
}

// The most sections that n bands can have: each but the last ends where a band turns, and a band turns at most twice.
pub fn most(n: usize) -> usize
    requires { n ≤ RULES }
    ensures { result ≡ most_sections n }
{
    2 * n + 1
}
