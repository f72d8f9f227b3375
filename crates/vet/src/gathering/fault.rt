// Mistakes in a chain, on standard error: where, what was expected, the line, and a mark under the place. `+` stands for the name of the chain.

use line::grammar::kind::Kind;
use line::scan::Mistake;
use std::fmt;
use std::io::Eprint;

// Where mistakes are said: a line itself need not be text, so it is written as bytes.
const STDERR: i32 = 2;

/// Why a line of a chain is not taken: what it says is mistaken, a name in it is none of a rule, or there is no room for its link.
#[derive(Clone, Copy)]
pub enum Fault {
    Mistaken(Mistake),
    NoSuchName { at: usize },
    TooMany,
}

impl Fault {
    /// `+:3:5: error: expected a number`, the line, and a mark under the place; or `+:32769: error: a chain has at most 32,768 links`.
    pub fn say(self, rt: &impl Eprint, line: u64, text: &[u8]) {
        let Some(at) = self.at() else {
            let _ = eprintln!(rt; "+:{line}: error: {self}");
            return;
        };
        let column = at.saturating_add(1);
        let _ = eprintln!(rt; "+:{line}:{column}: error: {self}");
        if text.len() <= line::LIMIT {
            io::write_all(STDERR, text);
            let _ = eprintln!(rt; "\n{:at$}^", "");
        }
    }

    // Where it is in the line.
    fn at(self) -> Option<usize> {
        match self {
            Fault::Mistaken(mistake) => Some(mistake.at),
            Fault::NoSuchName { at } => Some(at),
            Fault::TooMany => None,
        }
    }
}

impl fmt::Display for Fault {
    fn fmt<W: fmt::Write>(&self, f: &mut fmt::Formatter<W>) -> fmt::Result {
        match self {
            Fault::Mistaken(mistake) => write!(f, "expected {}", wanted(mistake.expected)),
            Fault::NoSuchName { at: _ } => write!(f, "expected the name of a rule"),
            Fault::TooMany => write!(f, "a chain has at most 32,768 links"),
        }
    }
}

fn wanted(expected: Kind) -> &'static str {
    match expected {
        Kind::End => "the end of the line",
        Kind::Number => "a number",
        Kind::Rule => "a rule: its number or its name, or bits",
        _ => "a line of at most 1,024 bytes",
    }
}
