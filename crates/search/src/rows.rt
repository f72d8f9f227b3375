// Rows in a lent array, a row a rule: the rule, its band, and a note. Only reading a row's rule or band, and putting a row, know how they lie.

ghost use Rattle.std.specs.Prelude.{◌≡◌, ◌<◌, ◌≤◌, not, slice_index_or, slice_set};
ghost use Rattle.word.specs.Word.{IsWidth, top};
ghost use Rattle.rule.specs.Meaning.{RULES};
ghost use Rattle.rule.specs.accept.Accept.{no_rule};
ghost use Rattle.rule.specs.band.route.Band.{Laid, holds, within};
ghost use Rattle.search.specs.rows.route.Bands.{blank_band, faced, seen};
ghost use Rattle.search.specs.rows.route.Rows.{bands_in, onward, row_of, rules_in};

use rule::Rule;
use rule::band::Band;
use rule::bits::Fixed;
use word::Width;

// The rule's form, sense and two constants; where its band starts, how far up from there it ends, and the side that fails; and a note: whether there is one, the
// verdict and its two words, and the fixed bits by three numbers.
pub const NUMBERS: usize = 14;

// What a search goes by beside the rows: how many of them are in force, the bits that their rules fix, and the width of the words.
#[derive(Clone, Copy)]
pub struct InForce {
    pub count: usize,
    pub fixed: Fixed,
    pub width: Width,
}

// The rule at a place.
pub fn rule_at(rows: &[[u64; NUMBERS]; Rule::LIMIT], i: usize) -> Rule
    requires { i < RULES }
    ensures { result ≡ slice_index_or (rules_in rows.now) i no_rule }
{
    let form = rows[i][0];
    let sense = rows[i][1];
    let c1 = rows[i][2];
    let c2 = rows[i][3];
    Rule {
        form,
        sense,
        c1,
        c2,
    }
}

// The band at a place, as it stands or on the wheel of words turned round.
#[tactic(auto, using(crate::proofs::rows::SearchBandAt::wanted), unfolding(crate::specs::rows::route::Rows::band_in, crate::specs::rows::route::Rows::onward))]
pub fn band_at(rows: &[[u64; NUMBERS]; Rule::LIMIT], i: usize, turned: bool, top: u64) -> Band
    requires i_bound { i < RULES }
    requires laid { Laid top (slice_index_or (bands_in rows.now) i blank_band) }
    ensures { result ≡ seen turned top (slice_index_or (bands_in rows.now) i blank_band) }
{
    let from = rows[i][4];
    let far = rows[i][5];
    let to = from.wrapping_add(far);
    let inside = rows[i][6] == 1;
    let band = Band { from, to, inside };
    if turned {
        return band.turned(top);
    }
    band
}

// Puts a rule and its band at a place, with no note.
pub fn put(rows: &mut [[u64; NUMBERS]; Rule::LIMIT], i: usize, rule: Rule, band: Band)
    requires { i < RULES }
    ensures { rows.new ≡ slice_set rows.old i (row_of rule band) }
{
    let far = band.to.wrapping_sub(band.from);
    let side = band.inside as u64;
    let unknown: u64 = 0;
    let row = [
        rule.form, rule.sense, rule.c1, rule.c2, band.from, far, side, unknown, 0, 0, 0, 0, 0, 0,
    ];
    rows[i] = row;
}

// The word that a search comes to, on the wheel of words as it stands or turned round, as it stands.
pub fn facing(x: u64, turned: bool, top: u64) -> u64
    requires { x ≤ top }
    ensures { result ≡ faced turned top x }
{
    if !turned {
        return x;
    }
    top - x
}

// Whether the word x fails the band at a place. A band that goes all the way round, as that of a form 7 rule does, is told by how far it
// goes: no word is looked for in it.
#[tactic(auto, using(crate::proofs::rows::SearchFailsAt::wanted))]
pub fn fails_at(rows: &[[u64; NUMBERS]; Rule::LIMIT], i: usize, width: Width, x: u64) -> bool
    requires i_bound { (i < RULES) × IsWidth width.bits }
    requires laid { Laid (top width.bits) (slice_index_or (bands_in rows.now) i blank_band) × (x ≤ top width.bits) }
    ensures { result ≡ not (holds (slice_index_or (bands_in rows.now) i blank_band) x) }
{
    let far = rows[i][5];
    if far == width.top() {
        return rows[i][6] == 1;
    }
    let from = rows[i][4];
    let inner = reaches(from, far, x);
    let inside = rows[i][6] == 1;
    if inside {
        return inner;
    }
    !inner
}

// Whether the word x is met on the way so far up from a word: it is no further up itself, on the wheel of machine words.
fn reaches(from: u64, far: u64, x: u64) -> bool
    ensures { result ≡ within from (onward from far) x }
{
    x.wrapping_sub(from) <= far
}
