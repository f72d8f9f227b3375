// What is noted in the rows, read and written: what is kept of the first rules, so that it need not be found again.

ghost use Rattle.std.specs.Prelude.{◌≡◌, [], ◌≤◌};
ghost use Rattle.word.specs.Word.{IsWidth};
ghost use Rattle.rule.specs.Meaning.{RULES};
ghost use Rattle.search.specs.noting.route.Note.{fixed_in, fixed_out, note_at, noting};

use crate::rows::NUMBERS;
use crate::verdict::Kept;
use rule::Rule;
use rule::bits::Fixed;
use word::Width;

// Whether what is kept of the first rules is known and, if so, what is kept and the bits that they fix.
#[derive(Clone, Copy)]
pub struct Note {
    pub known: bool,
    pub kept: Kept,
    pub fixed: Fixed,
}

// The note on the first n rules. What is kept of no rules is known.
pub fn note_at(rows: &[[u64; NUMBERS]; Rule::LIMIT], n: usize, width: Width) -> Note
    requires width { IsWidth width.bits }
    requires n_bound { n ≤ RULES }
    ensures { result ≡ note_at width.bits rows.now n }
{
    if n == 0 {
        return no_rules(width);
    }
    let i = n - 1;
    let row = rows[i];
    let known = row[7] == 1;
    let kept = Kept {
        verdict: row[8],
        smallest: row[9],
        largest: row[10],
    };
    let fixed = fixed_in(row[11], row[12], row[13]);
    Note { known, kept, fixed }
}

// The note on no rules: every word fits, and no bit is fixed.
pub fn no_rules(width: Width) -> Note
    requires { IsWidth width.bits }
    ensures { result ≡ note_at width.bits [] 0 }
{
    let kept = Kept {
        verdict: 2,
        smallest: 0,
        largest: width.top(),
    };
    let fixed = Fixed::Bits { mask: 0, value: 0 };
    Note {
        known: true,
        kept,
        fixed,
    }
}

// Notes what is kept of the first n rules, in the last one's row; its rule and its band stay.
pub fn put_note(rows: &mut [[u64; NUMBERS]; Rule::LIMIT], n: usize, kept: Kept, fixed: Fixed)
    requires { n ≤ RULES }
    ensures { rows.new ≡ noting kept fixed rows.old n }
{
    if n == 0 {
        return;
    }
    let i = n - 1;
    let bits = fixed_out(fixed);
    let old = rows[i];
    let row = [
        old[0],
        old[1],
        old[2],
        old[3],
        old[4],
        old[5],
        old[6],
        1,
        kept.verdict,
        kept.smallest,
        kept.largest,
        bits[0],
        bits[1],
        bits[2],
    ];
    rows[i] = row;
}

// Bits from three numbers: whether rules clash, the mask, and the value.
fn fixed_in(clash: u64, mask: u64, value: u64) -> Fixed
    ensures { result ≡ fixed_in clash mask value }
{
    if clash == 1 {
        return Fixed::Clash;
    }
    Fixed::Bits { mask, value }
}

// The three numbers.
#[tactic(auto, unfolding(crate::specs::noting::route::Note::fixed_out))]
fn fixed_out(fixed: Fixed) -> [u64; 3]
    ensures { result ≡ fixed_out fixed }
{
    match fixed {
        Fixed::Bits { mask, value } => [0, mask, value],
        Fixed::Clash => [1, 0, 0],
    }
}
