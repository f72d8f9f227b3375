// A line as people write it, read into a statement, or into its first mistake.
#![tactic(auto)]

pub mod grammar;
pub mod line_end;
pub mod piece;
pub mod row_rules;
pub mod scan;
pub mod scanning;
pub mod token;

ghost use Rattle.std.specs.Prelude.{◌≡◌};
ghost use Rattle.word.specs.Word.{IsWidth};
ghost use Rattle.line.specs.Line.{by_row, finished, nothing_read, other, read, rule_statement};

use crate::grammar::Place;
use crate::grammar::kind::Kind;
use crate::line_end::end_of;
use crate::row_rules::{rule_of, signed_word};
use crate::scan::{Amount, Mistake, Name, Scan};
use rule::Rule;
use word::Width;

// Words to list: from a word on, and at most so many.
#[derive(Clone, Copy)]
pub struct Listing {
    pub from: u64,
    pub most: u64,
}

// What a line says: nothing, a rule, a gate on watts, another statement, or where it is wrong.
#[derive(Clone, Copy)]
pub enum Statement {
    Blank,
    Rule(Rule),
    AtLeast(Amount),
    AtMost(Amount),
    Within(Amount, Amount),
    Open(u64),
    Mark,
    Back,
    Forward,
    Ask,
    Count,
    List(Listing),
    Why(u64),
    Show,
    Wrong(Mistake),
}

// A statement, and where the name of its rule stands in the line.
#[derive(Clone, Copy)]
pub struct Line {
    pub statement: Statement,
    pub name: Option<Name>,
}

// The most bytes that a line may have.
pub const LIMIT: usize = 1024;

// The line, without its byte 10, where a word has a width.
#[tactic(auto, unfolding(crate::specs::Line::read))]
pub fn read(line: &[u8], width: Width) -> Line
    requires { IsWidth width.bits }
    ensures { result ≡ read width.bits line.now }
{
    if LIMIT < line.len() {
        return Line {
            statement: Statement::Wrong(Mistake {
                at: LIMIT,
                expected: Kind::ShorterLine,
            }),
            name: None,
        };
    }
    let scan = crate::scanning::whole(line);
    Line {
        statement: finish(scan, end_of(line), width),
        name: scan.name,
    }
}

// What a line that was scanned to its end says; what was left out was expected where what it says ends.
#[tactic(auto, unfolding(crate::specs::Line::finished))]
fn finish(scan: Scan, end: usize, width: Width) -> Statement
    requires { IsWidth width.bits }
    ensures { result ≡ finished width.bits scan end }
{
    if let Some(mistake) = scan.mistake {
        return Statement::Wrong(mistake);
    }
    let place = scan.place;
    if nothing_read(place) {
        return Statement::Blank;
    }
    if !place.is_whole() {
        return Statement::Wrong(Mistake {
            at: end,
            expected: place.expected(),
        });
    }
    by_row(scan, width)
}

// Whether neither a kind nor what stands before a rule was read.
#[tactic(auto, using(crate::proofs::grammar::Same::wanted), unfolding(crate::specs::Line::nothing_read))]
fn nothing_read(place: Place) -> bool
    ensures { result ≡ nothing_read place }
{
    place.read == 0 && place.limit == Place::ROWS
}

// What a whole row says.
#[tactic(auto, using(crate::proofs::grammar::Same::wanted), unfolding(crate::specs::Line::by_row))]
fn by_row(scan: Scan, width: Width) -> Statement
    requires { IsWidth width.bits }
    ensures { result ≡ by_row width.bits scan }
{
    if scan.place.row < Place::NOT {
        return rule_statement(scan, width);
    }
    other(scan.place.row, scan.first, scan.second)
}

// A rule, where a signed number is in the range of its words.
#[tactic(auto, using(crate::proofs::grammar::Same::wanted), unfolding(crate::specs::Line::rule_statement, crate::specs::Line::rule_with))]
fn rule_statement(scan: Scan, width: Width) -> Statement
    requires { IsWidth width.bits }
    ensures { result ≡ rule_statement width.bits scan }
{
    let row = scan.place.row;
    let n = scan.first.numeral;
    let m = scan.second.numeral;
    if row < 9 || row == 13 {
        return Statement::Rule(rule_of(row, scan.negated, n.value, m.value));
    }
    let Some(c) = signed_word(width, m.minus, m.value) else {
        return Statement::Wrong(Mistake {
            at: scan.second.at,
            expected: Kind::SignedWord,
        });
    };
    Statement::Rule(rule_of(row, scan.negated, 0, c))
}

// The statements beside rules on words, by their rows.
fn other(row: usize, first: Amount, second: Amount) -> Statement
    ensures { result ≡ other row first second }
{
    let n = first.numeral;
    let m = second.numeral;
    match row {
        15 => Statement::AtLeast(second),
        16 => Statement::AtMost(second),
        17 => Statement::Within(first, second),
        19 => Statement::Open(m.value),
        20 => Statement::Mark,
        21 => Statement::Back,
        22 => Statement::Forward,
        23 => Statement::Ask,
        24 => Statement::Count,
        25 => Statement::List(Listing {
            from: 0,
            most: m.value,
        }),
        26 => Statement::List(Listing {
            from: n.value,
            most: m.value,
        }),
        27 => Statement::Why(m.value),
        28 => Statement::Show,
        _ => Statement::Blank,
    }
}
