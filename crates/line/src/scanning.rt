// A line read letter by letter, up to its first mistake.

ghost use Rattle.std.specs.Prelude.{◌≡◌};
ghost use Rattle.line.specs.scanning.Scanning.{accepted, closed, followed, scanned, step};

use crate::grammar::Place;
use crate::grammar::kind::Kind;
use crate::scan::{Scan, instead_of, is_number};
use crate::token::Token;
use crate::token::class::{Class, class_of};

/// The whole line.
pub fn whole(line: &[u8]) -> Scan
    ensures { result ≡ scanned line.now }
{
    let mut s = Scan::start();
    for i in 0..line.len() {
        s = step(s, line[i], i);
    }
    close(s, line.len())
}

// A letter more, at a place: of the token's class it is one more of it, and a comment takes all; else the token ends there.
#[tactic(auto, using(crate::proofs::token::Classes::wanted), unfolding(crate::specs::scanning::Scanning::step))]
fn step(s: Scan, b: u8, at: usize) -> Scan
    ensures { result ≡ step s b at }
{
    let class = class_of(b);
    if s.token.class == class || s.token.class == Class::Comment {
        return s.with_token(s.token.more(b));
    }
    close(s, at).with_token(Token::begin(class, b, at))
}

// The token ends before a place; blanks and comments are none.
#[tactic(auto, using(crate::proofs::token::Classes::wanted), unfolding(crate::specs::scanning::Scanning::closed))]
fn close(s: Scan, at: usize) -> Scan
    ensures { result ≡ closed s at }
{
    if s.mistake.is_some() {
        return s;
    }
    if s.token.class == Class::Blank || s.token.class == Class::Comment {
        return s;
    }
    accept(s, s.token.kind(s.place.is_watts()), at)
}

// The token has a kind, and ends before a place.
#[tactic(auto, unfolding(crate::specs::scanning::Scanning::accepted))]
fn accept(s: Scan, kind: Kind, at: usize) -> Scan
    ensures { result ≡ accepted s kind at }
{
    let Some(place) = s.place.follow(kind) else {
        return s.failed(s.token.from, instead_of(kind, s.place.expected()));
    };
    follow(s, kind, place, at)
}

// The line goes on: what the kind of the token adds to it.
#[tactic(auto, using(crate::proofs::scanning::Following::plain), unfolding(crate::specs::scanning::Scanning::followed))]
fn follow(s: Scan, kind: Kind, place: Place, at: usize) -> Scan
    ensures { result ≡ followed s kind place at }
{
    match kind {
        Kind::Not => s.negated(Place::start(Place::NOT)),
        Kind::Colon => s.placed(Place::start(Place::NAME)),
        Kind::Name => s.named(place, at),
        _ => {
            if is_number(kind) {
                return s.numbered(place);
            }
            s.placed(place)
        }
    }
}
