// The grammar of a line: its rows, each a list of kinds, and how far the kinds of a line follow them.

pub mod kind;
mod rows;

ghost use Rattle.std.specs.Prelude.{◌≡◌, ◌<◌, ◌≤◌, [], eqb, find, get_or, position};
ghost use Rattle.line.specs.grammar.Grammar.{KINDS, agree, expected, follow, goes_on, is_watts, is_whole, kind_of, padded, row_at, start_at};
ghost use Rattle.line.specs.declared.grammar.kind.Kind.TheVariants.{End};
ghost use Rattle.line.specs.grammar.Kinds.{letters_of, packed, packs};

use kind::{Kind, WORDS};
use rows::GRAMMAR;

/// How far a line has come: the first row that begins with the kinds read, how many kinds these are, and how many rows are open to it.
#[derive(Clone, Copy)]
pub struct Place {
    pub row: usize,
    pub read: usize,
    pub limit: usize,
}

// How many kinds a row has room for.
const KINDS: usize = 7;

impl Place {
    // How many rows there are, the row of `not` and the row of a name: a rule after `not` has the rows before the one, a rule after a
    // name those before the other.
    pub const ROWS: usize = 29;

    pub const NOT: usize = 14;

    pub const NAME: usize = 18;

    /// Nothing is read, and so many rows are open.
    pub fn start(limit: usize) -> Place
        ensures { result ≡ start_at limit }
    {
        Place {
            row: 0,
            read: 0,
            limit,
        }
    }

    /// A kind more, where an open row goes on so.
    #[tactic(auto, using(crate::proofs::grammar::Same::wanted), unfolding(crate::specs::grammar::Grammar::follow))]
    pub fn follow(self, kind: Kind) -> Option<Place>
        ensures { result ≡ follow self kind }
    {
        if KINDS <= self.read || Place::ROWS < self.limit {
            return None;
        }
        let rows = GRAMMAR;
        let row = next_row(&rows[..self.limit], row_at(self.row), self.read, kind)?;
        Some(Place {
            row,
            read: self.read + 1,
            limit: self.limit,
        })
    }

    /// What the row has where the line stands.
    #[tactic(auto, using(crate::proofs::grammar::Same::wanted), unfolding(crate::specs::grammar::Grammar::expected))]
    pub fn expected(self) -> Kind
        ensures { result ≡ expected self }
    {
        if 0 < self.read {
            return kind_at(self.row, self.read);
        }
        if self.limit == Place::ROWS {
            return Kind::Statement;
        }
        Kind::Rule
    }

    /// Whether the line is one on watts.
    #[tactic(auto, using(crate::proofs::grammar::Same::wanted), unfolding(crate::specs::grammar::Grammar::is_watts))]
    pub fn is_watts(self) -> bool
        ensures { result ≡ is_watts self }
    {
        0 < self.read && matches!(kind_at(self.row, 0), Kind::Watts)
    }

    /// Whether the row is read to its end.
    #[tactic(auto, using(crate::proofs::grammar::Same::wanted), unfolding(crate::specs::grammar::Grammar::is_whole))]
    pub fn is_whole(self) -> bool
        ensures { result ≡ is_whole self }
    {
        matches!(kind_at(self.row, self.read), Kind::End)
    }
}

/// The kind of a word or a sign whose letters are packed, or of what is none of the grammar's.
#[tactic(auto, using(crate::proofs::grammar::Same::wanted), unfolding(crate::specs::grammar::Grammar::kind_of))]
pub fn kind_of(text: u64) -> Kind
    ensures { result ≡ kind_of text }
{
    spelled(&WORDS, text).unwrap_or(Kind::Name)
}

// The first of some words that has a text.
fn spelled(words: &[Kind], text: u64) -> Option<Kind>
    ensures { result ≡ find (λ k. eqb (packs 0 (letters_of k)) text) words.now }
{
    words
        .iter()
        .copied()
        .find(|kind| pack(kind.text().as_bytes()) == text)
}

/// Letters packed 256 to the place.
pub fn pack(letters: &[u8]) -> u64
    ensures { result ≡ packs 0 letters.now }
{
    letters.iter().fold(0, |text, b| packed(text, *b))
}

/// A letter more, packed; eight letters are more than any text of the grammar has.
#[tactic(auto, using(crate::proofs::grammar::Same::wanted), unfolding(crate::specs::grammar::Kinds::packed))]
pub fn packed(text: u64, b: u8) -> u64
    ensures { result ≡ packed text b }
{
    if text < 0x01_00_00_00_00_00_00_00 {
        return 256 * text + b as u64;
    }
    text
}

// The first of some rows that begins with the first kinds of another and goes on with a kind.
fn next_row(rows: &[[Kind; KINDS]], read: [Kind; KINDS], n: usize, kind: Kind) -> Option<usize>
    requires { n < KINDS }
    ensures { result ≡ position (goes_on read n kind) rows.now }
{
    rows.iter().position(|row| goes_on(&read, n, kind, row))
}

// Whether a row begins with the first kinds of another, and goes on with a kind.
#[tactic(auto, using(crate::proofs::grammar::Same::wanted), unfolding(crate::specs::grammar::Grammar::goes_on))]
fn goes_on(read: &[Kind; KINDS], n: usize, kind: Kind, row: &[Kind; KINDS]) -> bool
    requires { n < KINDS }
    ensures { result ≡ goes_on read.now n kind row.now }
{
    if row[n] != kind {
        return false;
    }
    agree(read, row, n)
}

// Whether two rows have the same first kinds.
fn agree(a: &[Kind; KINDS], b: &[Kind; KINDS], n: usize) -> bool
    requires { n ≤ KINDS }
    ensures { result ≡ agree a.now b.now n }
{
    for i in 0..n {
        if a[i] != b[i] {
            return false;
        }
    }
    true
}

// A row by its number, and one without kinds where there is none.
#[tactic(auto, unfolding(crate::specs::grammar::Grammar::row_at))]
fn row_at(i: usize) -> [Kind; KINDS]
    ensures { result ≡ row_at i }
{
    let rows = GRAMMAR;
    row_of(&rows, i)
}

// A row of a table by its number, and one without kinds where there is none.
#[tactic(auto, using(crate::proofs::grammar::Same::no_row))]
fn row_of(rows: &[[Kind; KINDS]], i: usize) -> [Kind; KINDS]
    ensures { result ≡ get_or rows.now i (padded KINDS []) }
{
    if i < rows.len() {
        return rows[i];
    }
    [Kind::End; KINDS]
}

// What a row has at a place.
fn kind_at(row: usize, i: usize) -> Kind
    ensures { result ≡ get_or (row_at row) i End }
{
    let row = row_at(row);
    if i < KINDS {
        return row[i];
    }
    Kind::End
}
