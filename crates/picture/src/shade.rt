// A stretch of words by what is laid in rows: whether every word of it fails, every word passes, or some do. Exact, and never word by word.

ghost use Rattle.std.specs.Prelude.{◌≡◌, ◌≤◌, take};
ghost use Rattle.word.specs.Word.{IsWidth, top};
ghost use Rattle.rule.specs.bits.route.Fixed.{Tidy, has_bits};
ghost use Rattle.search.specs.rows.route.Bands.{Lie, passes};
ghost use Rattle.search.specs.rows.route.Rows.{bands_in};
ghost use Rattle.checker.specs.covering.Check.{every_word};
ghost use Rattle.picture.specs.shade.Cell.{cell_of};

use rule::Rule;
use rule::band::Run;
use rule::bits::Fixed;
use search::rows::{InForce, NUMBERS};

/// A cell of a picture. Where there is no sheet, no such rule or no such column, there is none.
#[derive(Clone, Copy, PartialEq, Eq)]
pub enum Cell {
    Fails,
    Meets,
    Partly,
    Nowhere,
}

/// Words in a row, by the bands in force and the bits.
pub fn stretch(rows: &[[u64; NUMBERS]; Rule::LIMIT], force: InForce, words: Run) -> Cell
    requires width { IsWidth force.width.bits }
    requires lie { Lie (top force.width.bits) force.count (bands_in rows.now) }
    requires tidy { Tidy force.fixed × (words.from ≤ words.to) × (words.to ≤ top force.width.bits) }
    ensures { result ≡ cell_of (passes (take force.count (bands_in rows.now)) force.fixed) words.from words.to }
{
    let Some(x) = search::sweep::sweep(rows, force, false, words.from) else {
        return Cell::Fails;
    };
    if words.to < x {
        return Cell::Fails;
    }
    if all_pass(rows, force, words) {
        return Cell::Meets;
    }
    Cell::Partly
}

// Whether every word of a row passes: the section that begins with it is held as far, and all its words have the bits.
#[tactic(auto, using(crate::proofs::shade::SearchAllPass::wanted))]
fn all_pass(rows: &[[u64; NUMBERS]; Rule::LIMIT], force: InForce, words: Run) -> bool
    requires width { IsWidth force.width.bits }
    requires lie { Lie (top force.width.bits) force.count (bands_in rows.now) }
    requires tidy { Tidy force.fixed × (words.from ≤ words.to) × (words.to ≤ top force.width.bits) }
    ensures { result ≡ every_word (passes (take force.count (bands_in rows.now)) force.fixed) words.from words.to }
{
    let section = search::section::at(rows, force.count, force.width.top(), words.from);
    section.held && words.to <= section.to && all_have(force.fixed, words)
}

// Whether every word of a row has the bits: as many have them as there are, the last by itself.
fn all_have(fixed: Fixed, words: Run) -> bool
    requires { Tidy fixed × (words.from ≤ words.to) }
    ensures { result ≡ every_word (has_bits fixed) words.from words.to }
{
    let having = rule::rank::below(fixed, words.to) - rule::rank::below(fixed, words.from);
    having == words.to - words.from && fixed.has(words.to)
}
