// What a line is made of, letter by letter: words, signs and numbers, and the kind that each has in the grammar.

pub mod class;

ghost use Rattle.std.specs.Prelude.{◌≡◌};
ghost use Rattle.line.specs.token.Token.{begun, kind, kind_of_number, more, none, opened, text_kind};

use crate::grammar::kind::Kind;
use crate::grammar::packed;
use class::Class;
use digits::numeral::{Numeral, Stage};

/// A word, a sign, or letters that are neither: the class of its letters, where it begins, its text packed 256 to the place, and the
/// number that it may be.
#[derive(Clone, Copy)]
pub struct Token {
    pub class: Class,
    pub from: usize,
    pub text: u64,
    pub numeral: Numeral,
}

impl Token {
    /// Nothing is read, as where blanks stand.
    pub fn none() -> Token
        ensures { result ≡ none }
    {
        Token {
            class: Class::Blank,
            from: 0,
            text: 0,
            numeral: Numeral::start(),
        }
    }

    /// A letter of a class begins it at a place.
    #[tactic(auto, unfolding(crate::specs::token::Token::begun))]
    pub fn begin(class: Class, b: u8, at: usize) -> Token
        ensures { result ≡ begun class b at }
    {
        Token {
            class: opened(class),
            from: at,
            text: b as u64,
            numeral: Numeral::start().next(b),
        }
    }

    /// A letter more.
    #[tactic(auto, unfolding(crate::specs::token::Token::more))]
    pub fn more(self, b: u8) -> Token
        ensures { result ≡ more self b }
    {
        Token {
            class: self.class,
            from: self.from,
            text: packed(self.text, b),
            numeral: self.numeral.next(b),
        }
    }

    /// Its kind; a number of any kind is one of watts in a line on watts.
    #[tactic(auto, using(crate::proofs::token::Classes::wanted), unfolding(crate::specs::token::Token::kind))]
    pub fn kind(self, watts: bool) -> Kind
        ensures { result ≡ kind self watts }
    {
        if self.class == Class::Stray {
            return Kind::Other;
        }
        match self.numeral.stage {
            Stage::Bad => text_kind(self.text, self.class),
            Stage::Needs => Kind::Other,
            Stage::Large => Kind::Large,
            Stage::Start | Stage::Zero | Stage::Digits => number_kind(self.numeral, watts),
        }
    }
}

// The class of a token whose first letter has a class: a minus begins a number.
#[tactic(auto, using(crate::proofs::token::Classes::not_minus), unfolding(crate::specs::token::Token::opened))]
fn opened(class: Class) -> Class
    ensures { result ≡ opened class }
{
    match class {
        Class::Minus => Class::Word,
        _ => class,
    }
}

// The kind of a text that is no number: a sign that is none of the grammar's is no name.
#[tactic(auto, using(crate::proofs::token::Classes::kinds), unfolding(crate::specs::token::Token::text_kind))]
fn text_kind(text: u64, class: Class) -> Kind
    ensures { result ≡ text_kind text class }
{
    let kind = crate::grammar::kind_of(text);
    if class == Class::Word {
        return kind;
    }
    if kind == Kind::Name {
        return Kind::Other;
    }
    kind
}

// The kind of a number.
#[tactic(auto, unfolding(crate::specs::token::Token::kind_of_number))]
fn number_kind(numeral: Numeral, watts: bool) -> Kind
    ensures { result ≡ kind_of_number numeral watts }
{
    if watts {
        return Kind::Amount;
    }
    if numeral.point {
        return Kind::Fraction;
    }
    if numeral.minus {
        return Kind::Negative;
    }
    Kind::Number
}
