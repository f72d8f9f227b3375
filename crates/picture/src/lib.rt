// A picture of a sheet, the line of words in at most 64 columns: the words of a column, and how words go by one rule alone.
#![tactic(auto)]

pub mod all_cells;
pub mod column;
pub mod rule_cells;
pub mod shade;

ghost use Rattle.std.specs.Prelude.{◌≡◌, true, ◌≤◌};
ghost use Rattle.word.specs.Word.{IsWidth, top};
ghost use Rattle.rule.specs.Meaning.{Lawful, meets};
ghost use Rattle.picture.specs.shade.Cell.{cell_of};
ghost use Rattle.picture.specs.route.Shown.{shown};

use crate::shade::Cell;
use rule::Rule;
use rule::band::{Band, Run};
use rule::bits::Fixed;
use search::rows::{InForce, NUMBERS};
use word::Width;

/// A column's words, where there is a sheet that is not blank and such a column.
#[tactic(auto, using(crate::proofs::SearchWordsOf::wanted), unfolding(crate::specs::route::Shown::shown))]
pub fn words_of(stands: bool, bits: u64, column: u64) -> Option<Run>
    requires { stands ≡ true → (bits ≡ 0 → ⊥) → IsWidth bits }
    ensures { result ≡ shown stands bits column }
{
    if !stands || bits == 0 {
        return None;
    }
    let width = Width { bits };
    if column::count(width) <= column {
        return None;
    }
    Some(column::words(width, column))
}

/// Words in a row by a rule alone.
pub fn alone(rule: Rule, width: Width, words: Run) -> Cell
    requires width { IsWidth width.bits }
    requires lawful { Lawful width.bits rule × (words.from ≤ words.to) × (words.to ≤ top width.bits) }
    ensures { result ≡ cell_of (meets width.bits rule) words.from words.to }
{
    let mut rows = [[0; NUMBERS]; Rule::LIMIT];
    let band = Band::of(rule, width);
    search::rows::put(&mut rows, 0, rule, band);
    let fixed = Fixed::Bits { mask: 0, value: 0 };
    let force = InForce {
        count: 1,
        fixed: fixed.with(rule),
        width,
    };
    shade::stretch(&rows, force, words)
}
