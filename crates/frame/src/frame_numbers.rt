// What the code and the numbers of a line say before it is a frame: the edition whose frames have the code, whether the line is as
// long as one that opens or adds, and the rule that an add's digits write.

ghost use Rattle.std.specs.Prelude.{◌≡◌, ◌&&◌, eqb, length};
ghost use Rattle.word.specs.Edition.{terms};
ghost use Rattle.frame.specs.fields.Fields.{WORD};
ghost use Rattle.frame.specs.frame_numbers.route.Numbers.{OPENING, adding, code_edition, rule_of};

use crate::fields::Field;
use rule::Rule;
use word::Edition;

// Where an opening ends, and where the numbers of an add begin.
pub const OPENING: usize = 2 * Field::BYTE;

const FORM: usize = Field::BYTE;

const SENSE: usize = FORM + Field::BYTE;

const C1: usize = SENSE + Field::BYTE;

// The edition whose frames have a code; a code that has none is looked for among the old ones.
#[tactic(auto, using(crate::proofs::frame_numbers::SearchEditionOf::wanted), unfolding(crate::specs::frame_numbers::route::Numbers::code_edition))]
pub fn edition_of(code: u64) -> Edition
    ensures { result ≡ code_edition code }
{
    let new = Edition::New.terms();
    if code == new.opens {
        return Edition::New;
    }
    if code == new.adds {
        return Edition::New;
    }
    Edition::Old
}

// Whether a line of so many digits that begins with a code opens a sheet of an edition.
#[tactic(auto, using(crate::proofs::frame_numbers::SearchOpens::wanted))]
pub fn opens(edition: Edition, code: u64, digits: usize) -> bool
    ensures { result ≡ (eqb digits OPENING && eqb code (terms edition).opens) }
{
    let terms = edition.terms();
    digits == OPENING && code == terms.opens
}

// Whether it adds a rule to one.
pub fn adds(edition: Edition, code: u64, digits: usize) -> bool
    ensures { result ≡ (eqb digits (adding edition) && eqb code (terms edition).adds) }
{
    let terms = edition.terms();
    let word = terms.digits;
    let end = C1 + word + word;
    if digits != end {
        return false;
    }
    code == terms.adds
}

// The rule that the digits after an add's code write.
pub fn rule_of(line: &[u8], edition: Edition) -> Rule
    requires { length line.now ≡ adding edition }
    ensures { result ≡ rule_of (WORD edition) line.now }
{
    let word = edition.terms().digits;
    let c2 = C1 + word;
    let end = c2 + word;
    Rule {
        form: digits::hexadecimal::number(line, FORM, SENSE),
        sense: digits::hexadecimal::number(line, SENSE, C1),
        c1: digits::hexadecimal::number(line, C1, c2),
        c2: digits::hexadecimal::number(line, c2, end),
    }
}
