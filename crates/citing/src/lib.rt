// A line of a chain, as a lab writes it or as the desk does: read into a link, or into its first mistake.
#![tactic(auto)]

pub mod linked;

ghost use Rattle.std.specs.Prelude.{◌≡◌};
ghost use Rattle.citing.specs.Citation.{citation, cited, is_reason, lab_says, said, wrong_at};

use chain::Link;
use line::grammar::kind::Kind;
use line::piece::Piece;
use line::scan::{Mistake, Name};

/// What a line says: nothing; a link of three numbers; one whose reason is a name at a place of the line; or where it is wrong.
#[derive(Clone, Copy)]
pub enum Citation {
    Nothing,
    Numbered(Link),
    Named(Link, Name),
    Wrong(Mistake),
}

// The word that stands for the bits.
const BITS: &str = "bits";

/// The line, without its byte 10.
pub fn read(line: &[u8]) -> Citation
    ensures { result ≡ citation line.now }
{
    if line::LIMIT < line.len() {
        return Citation::Wrong(Mistake {
            at: line::LIMIT,
            expected: Kind::ShorterLine,
        });
    }
    match crate::linked::read(line) {
        Some(link) => Citation::Numbered(link),
        None => lab_says(line),
    }
}

// The words of a line as a lab writes it.
fn lab_says(line: &[u8]) -> Citation
    ensures { result ≡ lab_says line.now }
{
    let first = line::piece::next(line, 0);
    let second = line::piece::next(line, first.to);
    let third = line::piece::next(line, second.to);
    let fourth = line::piece::next(line, third.to);
    said(first, second, third, fourth)
}

// What the first four words of a line say: FROM, TO, RULE, and then nothing.
#[tactic(auto, using(crate::proofs::Texts::wanted), unfolding(crate::specs::Citation::said))]
fn said(first: Piece, second: Piece, third: Piece, fourth: Piece) -> Citation
    ensures { result ≡ said first second third fourth }
{
    if first.kind == Kind::End {
        return Citation::Nothing;
    }
    if first.kind != Kind::Number {
        return wrong_at(first, Kind::Number);
    }
    if second.kind != Kind::Number {
        return wrong_at(second, Kind::Number);
    }
    if !is_reason(third.kind) {
        return wrong_at(third, Kind::Rule);
    }
    if fourth.kind != Kind::End {
        return wrong_at(fourth, Kind::End);
    }
    cited(first.value, second.value, third)
}

// The link, whose reason is a number, the bits, or what a name stands for.
#[tactic(auto, using(crate::proofs::Texts::wanted), unfolding(crate::specs::Citation::cited))]
fn cited(from: u64, to: u64, reason: Piece) -> Citation
    ensures { result ≡ cited from to reason }
{
    if reason.kind == Kind::Number {
        return Citation::Numbered(Link {
            from,
            to,
            reason: reason.value,
        });
    }
    if reason.text == line::grammar::pack(BITS.as_bytes()) {
        return Citation::Numbered(Link {
            from,
            to,
            reason: Link::BITS,
        });
    }
    Citation::Named(
        Link {
            from,
            to,
            reason: 0,
        },
        Name {
            from: reason.from,
            to: reason.to,
        },
    )
}

// Whether a kind is one of reasons: a number or a name.
#[tactic(auto, using(crate::proofs::Texts::wanted), unfolding(crate::specs::Citation::is_reason))]
fn is_reason(kind: Kind) -> bool
    ensures { result ≡ is_reason kind }
{
    matches!(kind, Kind::Number | Kind::Name)
}

#[tactic(auto, using(crate::proofs::Texts::wanted), unfolding(crate::specs::Citation::wrong_at))]
fn wrong_at(piece: Piece, expected: Kind) -> Citation
    ensures { result ≡ wrong_at piece expected }
{
    Citation::Wrong(Mistake {
        at: piece.from,
        expected,
    })
}
