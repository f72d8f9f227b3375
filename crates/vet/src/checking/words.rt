// What is found of a chain, in one line on standard output.
ghost use Rattle.std.specs.Prelude.{◌≡◌, IfOk};
ghost use Rattle.vet.specs.status.Status.{number_of, status_of};

use crate::gathering::Chain;
use crate::status::Verdict;
use checker::finding::Breach;
use naming::MOST;
use rule::Rule;
use std::{fmt, io};

/// Tells it, and gives the verdict.
pub fn tell(
    rt: &impl Print,
    found: Result<(), Breach>,
    names: &[[u8; MOST]; Rule::LIMIT],
    chain: &Chain,
) -> io::Result<Verdict>
    ensures { IfOk result (λ v. number_of v ≡ status_of found) }
{
    match found {
        Ok(_) => println!(rt; "yes: no word fits")?,
        Err(breach) => {
            let why = Why {
                breach,
                names,
                chain,
            };
            println!(rt; "no: {why}")?;
        }
    }
    Ok(Verdict::of(found))
}

// The clause of the paper that does not hold, with the names of the rules, and the chain whose link it may be one of.
#[derive(Clone, Copy)]
struct Why<'a> {
    breach: Breach,
    names: &'a [[u8; MOST]; Rule::LIMIT],
    chain: &'a Chain,
}

impl Why<'_> {
    // The line of a link.
    fn line(&self, link: usize) -> u64 {
        self.chain.origin(link).unwrap_or_default().line
    }

    // The number that a link has for its reason, and the rule of that number.
    fn reason(&self, link: usize) -> u64 {
        self.chain.reason(link).unwrap_or(0)
    }

    fn rule(&self, link: usize) -> Called<'_> {
        Called {
            number: self.reason(link),
            names: self.names,
        }
    }
}

impl fmt::Display for Why<'_> {
    fn fmt<W: fmt::Write>(&self, f: &mut fmt::Formatter<W>) -> fmt::Result {
        match self.breach {
            Breach::NoSheet => write!(f, "no sheet is open"),
            Breach::Empty => write!(f, "the chain is empty"),
            Breach::Ragged => write!(f, "the numbers of the chain are no multiple of three"),
            Breach::Short => write!(f, "the largest end is not the top word"),
            Breach::Backward { link } => {
                write!(f, "line {}: the link starts above its end", self.line(link))
            }
            Breach::AboveTop { link } => {
                write!(
                    f,
                    "line {}: the link ends above the top word",
                    self.line(link)
                )
            }
            Breach::NotFromZero { link } => {
                write!(
                    f,
                    "line {}: the first link does not start at 0",
                    self.line(link)
                )
            }
            Breach::Gap { link } => write!(
                f,
                "line {}: the link starts more than one past the largest end so far",
                self.line(link),
            ),
            Breach::NoRule { link } => {
                write!(
                    f,
                    "line {}: there is no rule {}",
                    self.line(link),
                    self.reason(link)
                )
            }
            Breach::BitRule { link } => write!(
                f,
                "line {}: {} is one on bits, which a link shows as bits",
                self.line(link),
                self.rule(link),
            ),
            Breach::MeetsRule { link, word } => {
                write!(
                    f,
                    "line {}: word {word} meets {}",
                    self.line(link),
                    self.rule(link)
                )
            }
            Breach::MeetsBits { link, word } => {
                write!(
                    f,
                    "line {}: word {word} has the fixed bits",
                    self.line(link)
                )
            }
        }
    }
}

// `rule late`, or `rule 3` where it has no name.
#[derive(Clone, Copy)]
struct Called<'a> {
    number: u64,
    names: &'a [[u8; MOST]; Rule::LIMIT],
}

impl fmt::Display for Called<'_> {
    fn fmt<W: fmt::Write>(&self, f: &mut fmt::Formatter<W>) -> fmt::Result {
        match name_of(self.names, self.number) {
            Some(name) => write!(f, "rule {name}"),
            None => write!(f, "rule {}", self.number),
        }
    }
}

// The name of a rule, if it has one. A name is text: letters, digits, `_` and `.`.
fn name_of(names: &[[u8; MOST]; Rule::LIMIT], number: u64) -> Option<&str> {
    let row = names.get(number as usize)?;
    let name = row.get(..naming::length(row))?;
    str::from_utf8(name).ok().filter(|name| !name.is_empty())
}
