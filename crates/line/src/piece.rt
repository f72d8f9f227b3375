// The words of a line, one after another: what stands from a place on, its kind, its number and its letters.

ghost use Rattle.std.specs.Prelude.{◌≡◌};
ghost use Rattle.line.specs.piece.Piece.{end_at, ends, grown, piece_of, word_at};

use crate::grammar::kind::Kind;
use crate::token::Token;
use crate::token::class::{Class, class_of};

/// A word, a number or a sign: its kind, where it begins and ends, the number that it is, and its letters packed 256 to the place. At the
/// end of the line, and before a comment, stands one of the kind of the end.
#[derive(Clone, Copy)]
pub struct Piece {
    pub kind: Kind,
    pub from: usize,
    pub to: usize,
    pub value: u64,
    pub text: u64,
}

/// What stands from a place on.
pub fn next(line: &[u8], at: usize) -> Piece
    ensures { result ≡ word_at line.now at }
{
    let mut token = Token::none();
    let mut i = at;
    while i < line.len() {
        let b = line[i];
        if ends(token, b) {
            return piece_of(token, i);
        }
        token = grown(token, b, i);
        i += 1;
    }
    piece_of(token, i)
}

// Whether a token ends before a letter: one of another class, but a comment has no end, and after blanks a token is to begin.
#[tactic(auto, using(crate::proofs::token::Classes::wanted), unfolding(crate::specs::piece::Piece::ends))]
fn ends(token: Token, b: u8) -> bool
    ensures { result ≡ ends token b }
{
    if token.class == class_of(b) {
        return false;
    }
    if token.class == Class::Comment {
        return false;
    }
    token.class != Class::Blank
}

// A letter more, where the token does not end before it.
#[tactic(auto, using(crate::proofs::token::Classes::wanted), unfolding(crate::specs::piece::Piece::grown))]
fn grown(token: Token, b: u8, at: usize) -> Token
    ensures { result ≡ grown token b at }
{
    let class = class_of(b);
    if token.class == class || token.class == Class::Comment {
        return token.more(b);
    }
    Token::begin(class, b, at)
}

// A token that ends before a place.
#[tactic(auto, using(crate::proofs::token::Classes::wanted), unfolding(crate::specs::piece::Piece::piece_of))]
fn piece_of(token: Token, to: usize) -> Piece
    ensures { result ≡ piece_of token to }
{
    if token.class == Class::Blank || token.class == Class::Comment {
        return end_at(to);
    }
    Piece {
        kind: token.kind(false),
        from: token.from,
        to,
        value: token.numeral.value,
        text: token.text,
    }
}

// The end of the line.
#[tactic(auto, unfolding(crate::specs::piece::Piece::end_at))]
fn end_at(at: usize) -> Piece
    ensures { result ≡ end_at at }
{
    Piece {
        kind: Kind::End,
        from: at,
        to: at,
        value: 0,
        text: 0,
    }
}
