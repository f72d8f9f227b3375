// Mistakes, on standard error: where, what was expected or why a call was refused, the line, and a mark under the place.

use crate::printing::{Told, words_of};
use dialogue::upshot::Response;
use line::Statement;
use line::grammar::kind::Kind;
use line::scan::Name;
use std::fmt;
use std::io::{Eprint, Result};

// Where mistakes are said.
const STDERR: i32 = 2;

// The refusal of a width, and that of a constant, of a bit outside a mask and of a word that is asked about.
const NO_WIDTH: u64 = 2;

const TOO_HIGH: u64 = 5;

/// Says a mistake or a refusal, and whether there was one. What cannot be written is lost.
pub fn say(rt: &impl Eprint, told: Told<'_>, text: &[u8]) -> bool {
    let (at, fault) = match told.response {
        Response::Mistaken(mistake) => (mistake.at, Fault::Expected(mistake.expected)),
        Response::Refused(number) => {
            let fault = Fault::of(told, number);
            (fault.place(text, told.sheet.width), fault)
        }
        _ => return false,
    };
    let _ = show(rt, told.line, text, at, fault);
    true
}

// `-:3:12: error: expected <=`, the line, and a mark under the place: a column counts from 1. A line that is too long is not shown.
fn show(rt: &impl Eprint, line: u64, text: &[u8], at: usize, fault: Fault) -> Result<()> {
    eprintln!(rt; "-:{line}:{}: error: {fault}", at.wrapping_add(1))?;
    if line::LIMIT < text.len() {
        return Ok(());
    }
    // A line may have any bytes, and `eprint!` writes text alone.
    io::write_all(STDERR, text);
    eprintln!(rt; "\n{}", Mark { text, at })
}

// A mark under a place of a line: a tab stands under a tab, so that the mark does under its place.
#[derive(Clone, Copy)]
struct Mark<'a> {
    text: &'a [u8],
    at: usize,
}

impl fmt::Display for Mark<'_> {
    fn fmt<W: fmt::Write>(&self, f: &mut fmt::Formatter<W>) -> fmt::Result {
        for place in 0..self.at {
            let is_tab = self.text.get(place) == Some(&b'\t');
            f.write_str(if is_tab { "\t" } else { " " })?;
        }
        f.write_str("^")
    }
}

// What is wrong with a line: a kind is expected; or it is refused with a number, of which one is said of a constant and of a word that are
// above the top word of so many bits, and of a bit outside a mask.
#[derive(Clone, Copy)]
enum Fault {
    Expected(Kind),
    Refused(u64),
    HighConstant { bits: u64 },
    HighWord { bits: u64 },
    StrayBit,
}

impl Fault {
    // What a refusal is given for.
    fn of(told: Told<'_>, number: u64) -> Fault {
        let bits = told.sheet.width;
        if number != TOO_HIGH {
            return Fault::Refused(number);
        }
        let Statement::Rule(rule) = told.statement else {
            return Fault::HighWord { bits };
        };
        if rule.form != 7 || is_above(rule.c1, bits) || is_above(rule.c2, bits) {
            return Fault::HighConstant { bits };
        }
        Fault::StrayBit
    }

    // Where a refusal is told: at the number that is at fault, the first of two where that is too large, and where none is at the beginning of
    // the statement.
    fn place(self, text: &[u8], bits: u64) -> usize {
        let scan = line::scanning::whole(text);
        if !self.is_of_number() {
            return beginning(text, scan.name);
        }
        if is_above(scan.first.numeral.value, bits) {
            return scan.first.at;
        }
        scan.second.at
    }

    // Whether a number is at fault: past the constants, words and bits that is a width.
    fn is_of_number(self) -> bool {
        match self {
            Fault::Refused(number) => number == NO_WIDTH,
            Fault::Expected(_) => false,
            _ => true,
        }
    }
}

// Where the statement begins: after the name of its rule and the colon, where it has one.
fn beginning(text: &[u8], name: Option<Name>) -> usize {
    let Some(name) = name else {
        return line::piece::next(text, 0).from;
    };
    let colon = line::piece::next(text, name.to);
    line::piece::next(text, colon.to).from
}

// Whether a number is above the top word.
fn is_above(n: u64, bits: u64) -> bool {
    words_of(bits) <= u128::from(n)
}

impl fmt::Display for Fault {
    fn fmt<W: fmt::Write>(&self, f: &mut fmt::Formatter<W>) -> fmt::Result {
        match *self {
            Fault::Expected(kind) => write!(f, "expected {}", expected(kind)),
            Fault::Refused(number) => write!(f, "{} ({number})", reason(number)),
            Fault::HighConstant { bits } => {
                write!(
                    f,
                    "a constant is above the top word of {bits} bits ({TOO_HIGH})"
                )
            }
            Fault::HighWord { bits } => {
                write!(
                    f,
                    "the word is above the top word of {bits} bits ({TOO_HIGH})"
                )
            }
            Fault::StrayBit => write!(f, "a bit of the value is not in the mask ({TOO_HIGH})"),
        }
    }
}

// Why a call is refused with a number.
fn reason(number: u64) -> &'static str {
    match number {
        1 => "no sheet is open: a line such as `word 16` opens one",
        2 => "a word has 1 to 64 bits",
        3 => "there is no such form of rule",
        4 => "`not` does not stand before a rule on bits",
        6 => "a sheet has room for 200 rules",
        7 => "32 marks are in force",
        8 => "there is no mark to go back to",
        9 => "the buffer is too short",
        10 => "the line is none of the frames",
        11 => "the sheet is of another edition",
        12 => "nothing waits to come forward",
        13 => "a gate on watts wants words of 32 bits",
        14 => "a limit is not a number",
        17 => "the record is no sheet",
        _ => "",
    }
}

// What is expected where a kind is.
fn expected(kind: Kind) -> &'static str {
    match kind {
        Kind::End => "the end of the line",
        Kind::X => "x",
        Kind::Plus => "+",
        Kind::AtMost => "<=",
        Kind::Below => "<",
        Kind::AtLeast => ">=",
        Kind::Above => ">",
        Kind::Equals => "=",
        Kind::And => "&",
        Kind::UpTo => "..",
        Kind::Colon => ":",
        Kind::Not => "not",
        Kind::Signed => "signed",
        Kind::Settled => "settled",
        Kind::Since => "since",
        Kind::For => "for",
        Kind::Watts => "watts",
        Kind::At => "at",
        Kind::Least => "least",
        Kind::Most => "most",
        Kind::Within => "within",
        Kind::Word => "word",
        Kind::Mark => "mark",
        Kind::Back => "back",
        Kind::Forward => "forward",
        Kind::Ask => "ask",
        Kind::Count => "count",
        Kind::List => "list",
        Kind::From => "from",
        Kind::Why => "why",
        Kind::Show => "show",
        Kind::Number => "a number (decimal, 0x with lowercase digits, or 0b)",
        Kind::Negative => "a number below zero",
        Kind::Amount | Kind::Fraction => "a number of watts",
        Kind::Name => "a name",
        Kind::Other => "a word",
        Kind::Large => "a number below 2^64",
        Kind::Statement => "a statement",
        Kind::Rule => "a rule",
        Kind::SignedWord => "a number that a signed word has",
        Kind::ShorterLine => "a line of at most 1,024 bytes",
    }
}
