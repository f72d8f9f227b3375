// What is read of a line so far: how far its kinds follow the grammar, its name, its numbers and its first mistake; what a token adds to it; and what is
// said to be expected where a token is wrong.

ghost use Rattle.std.specs.Prelude.{◌≡◌};
ghost use Rattle.line.specs.scan.Scan.{failed, instead_of, is_number, named, negated, numbered, placed, started, takes_number, with_token};

use crate::grammar::Place;
use crate::grammar::kind::Kind;
use crate::token::Token;
use digits::numeral::Numeral;

/// Where a line is wrong first, in bytes from its start, and the kind that was expected there.
#[derive(Clone, Copy)]
pub struct Mistake {
    pub at: usize,
    pub expected: Kind,
}

/// Where a rule's name stands in its line: from a place, and before another.
#[derive(Clone, Copy)]
pub struct Name {
    pub from: usize,
    pub to: usize,
}

/// A number, and where it stands.
#[derive(Clone, Copy)]
pub struct Amount {
    pub at: usize,
    pub numeral: Numeral,
}

/// The token that is being read; how far the line follows the grammar; whether `not` stands before the rule, and its name; the last
/// two numbers; and where the line is wrong, if it is. A line that is wrong keeps its name, so its mistake is no `Err`.
#[derive(Clone, Copy)]
pub struct Scan {
    pub token: Token,
    pub place: Place,
    pub negated: bool,
    pub name: Option<Name>,
    pub first: Amount,
    pub second: Amount,
    pub mistake: Option<Mistake>,
}

impl Scan {
    /// Nothing is read.
    #[tactic(auto, unfolding(crate::specs::scan::Scan::started))]
    pub fn start() -> Scan
        ensures { result ≡ started }
    {
        let amount = Amount {
            at: 0,
            numeral: Numeral::start(),
        };
        Scan {
            token: Token::none(),
            place: Place::start(Place::ROWS),
            negated: false,
            name: None,
            first: amount,
            second: amount,
            mistake: None,
        }
    }

    #[tactic(auto, unfolding(crate::specs::scan::Scan::with_token))]
    pub fn with_token(mut self, token: Token) -> Scan
        ensures { result ≡ with_token self token }
    {
        self.token = token;
        self
    }

    #[tactic(auto, unfolding(crate::specs::scan::Scan::failed))]
    pub fn failed(mut self, at: usize, expected: Kind) -> Scan
        ensures { result ≡ failed self at expected }
    {
        self.mistake = Some(Mistake { at, expected });
        self
    }

    #[tactic(auto, unfolding(crate::specs::scan::Scan::placed))]
    pub fn placed(mut self, place: Place) -> Scan
        ensures { result ≡ placed self place }
    {
        self.place = place;
        self
    }

    #[tactic(auto, unfolding(crate::specs::scan::Scan::negated))]
    pub fn negated(mut self, place: Place) -> Scan
        ensures { result ≡ negated self place }
    {
        self.negated = true;
        self.place = place;
        self
    }

    /// The token is a name.
    #[tactic(auto, unfolding(crate::specs::scan::Scan::named))]
    pub fn named(mut self, place: Place, at: usize) -> Scan
        ensures { result ≡ named self place at }
    {
        self.place = place;
        self.name = Some(Name {
            from: self.token.from,
            to: at,
        });
        self
    }

    /// The token is a number: it is the second now, and the second the first.
    #[tactic(auto, unfolding(crate::specs::scan::Scan::numbered))]
    pub fn numbered(mut self, place: Place) -> Scan
        ensures { result ≡ numbered self place }
    {
        self.place = place;
        self.first = self.second;
        self.second = Amount {
            at: self.token.from,
            numeral: self.token.numeral,
        };
        self
    }
}

/// Whether a kind is one of numbers.
#[tactic(auto, using(crate::proofs::scan::Numbers::wanted), unfolding(crate::specs::scan::Scan::is_number))]
pub fn is_number(kind: Kind) -> bool
    ensures { result ≡ is_number kind }
{
    match kind {
        Kind::Number | Kind::Negative | Kind::Amount | Kind::Fraction => true,
        _ => false,
    }
}

/// What is said to be expected where a kind stands: of a number past 64 bits, where a number may stand, one within them.
#[tactic(auto, using(crate::proofs::scan::Numbers::wanted), unfolding(crate::specs::scan::Scan::instead_of))]
pub fn instead_of(kind: Kind, expected: Kind) -> Kind
    ensures { result ≡ instead_of kind expected }
{
    if kind != Kind::Large {
        return expected;
    }
    if takes_number(expected) {
        return Kind::Large;
    }
    expected
}

// Whether a number may stand where a kind is expected.
#[tactic(auto, using(crate::proofs::scan::Numbers::wanted), unfolding(crate::specs::scan::Scan::takes_number))]
fn takes_number(expected: Kind) -> bool
    ensures { result ≡ takes_number expected }
{
    match expected {
        Kind::Statement | Kind::Rule => true,
        _ => is_number(expected),
    }
}
