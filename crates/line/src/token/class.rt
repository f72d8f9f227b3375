// The classes of letters.
ghost use Rattle.std.specs.Prelude.{◌≡◌};
ghost use Rattle.line.specs.token.Token.{class_of, is_blank, is_sign, is_word};

/// What a letter can be part of.
#[derive(Clone, Copy, PartialEq, Eq)]
pub enum Class {
    /// A blank.
    Blank,
    /// A word or a number: letters, digits, `_` and `.`.
    Word,
    /// A sign.
    Sign,
    /// A comment.
    Comment,
    /// Nothing that a line has.
    Stray,
    /// A number below zero, which a minus begins.
    Minus,
}

/// The class of a letter.
#[tactic(auto, using(crate::proofs::token::Classes::wanted), unfolding(crate::specs::token::Token::class_of))]
pub fn class_of(b: u8) -> Class
    ensures { result ≡ class_of b }
{
    if is_word(b) {
        return Class::Word;
    }
    if is_sign(b) {
        return Class::Sign;
    }
    if is_blank(b) {
        return Class::Blank;
    }
    match b {
        b'#' => Class::Comment,
        b'-' => Class::Minus,
        _ => Class::Stray,
    }
}

// A letter, a digit, `_` or `.`.
#[tactic(auto, using(crate::proofs::token::Classes::letters), unfolding(crate::specs::token::Token::is_word))]
fn is_word(b: u8) -> bool
    ensures { result ≡ is_word b }
{
    matches!(b, b'.' | b'_' | b'0'..=b'9' | b'A'..=b'Z' | b'a'..=b'z')
}

// A letter of a sign.
#[tactic(auto, using(crate::proofs::token::Classes::letters), unfolding(crate::specs::token::Token::is_sign))]
fn is_sign(b: u8) -> bool
    ensures { result ≡ is_sign b }
{
    matches!(b, b'&' | b'+' | b':' | b'<'..=b'>')
}

// A space, a tab, or the byte 13 that ends a line before its byte 10.
#[tactic(auto, using(crate::proofs::token::Classes::letters), unfolding(crate::specs::token::Token::is_blank))]
fn is_blank(b: u8) -> bool
    ensures { result ≡ is_blank b }
{
    matches!(b, b' ' | b'\t' | b'\r')
}
