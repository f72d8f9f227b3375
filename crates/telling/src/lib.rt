// Answers in words, on standard output. A rule is called by its name, or by its number where it has none.
#![tactic(auto)]

pub mod drawing;
pub mod mistakes;
pub mod objects;
pub mod outward;
pub mod printing;

use crate::printing::{Answer, NamedRule, Rules, Told, WORDS};
use chain::Link;
use dialogue::upshot::Response;
use line::Listing;
use std::fmt;
use std::io::Result;

/// Tells what a statement is answered, and draws what stands where that is shown.
pub fn tell(rt: &impl Print, told: Told<'_>) -> Result<()> {
    rt.print(Words(told))?;
    if let Response::Shown = told.response {
        return drawing::draw(rt, told.rules());
    }
    Ok(())
}

/// What is told in words: nothing where a statement is answered nothing.
#[derive(Clone, Copy)]
pub struct Words<'a>(pub Told<'a>);

impl fmt::Display for Words<'_> {
    fn fmt<W: fmt::Write>(&self, f: &mut fmt::Formatter<W>) -> fmt::Result {
        let Words(told) = *self;
        let Some(answer) = told.answer() else {
            return Ok(());
        };
        let rules = told.rules();
        let bits = told.sheet.width as usize;
        let size = printing::words_of(told.sheet.width);
        match answer {
            Answer::NoWord(links) => tell_chain(f, rules, links),
            Answer::OneWord(x) => writeln!(f, "one word fits: {x} ({x:#x}, 0b{x:0bits$b})"),
            Answer::ManyWords {
                count,
                smallest,
                largest,
            } => {
                write!(
                    f,
                    "many words fit, {count} of {size}: the smallest is {smallest} ({smallest:#x})"
                )?;
                writeln!(f, ", the largest {largest} ({largest:#x})")
            }
            Answer::Count(count) => writeln!(f, "{count} of {size} words fit"),
            Answer::List { words, rest } => tell_list(f, words, rest),
            Answer::Why { word, failed } => tell_why(f, rules, word, failed),
            Answer::Shown => tell_sheet(f, rules),
        }
    }
}

// The links of a chain, a line each: `0 (0x0) .. 10 (0xa) fail rule late: x + 5 <= 3`.
fn tell_chain<W: fmt::Write>(
    f: &mut fmt::Formatter<W>,
    rules: Rules<'_>,
    links: &[[u64; Link::NUMBERS]],
) -> fmt::Result {
    writeln!(f, "no word fits")?;
    for &[from, to, reason] in links {
        write!(f, "{from} ({from:#x}) .. {to} ({to:#x}) fail ")?;
        match rules.reason(reason) {
            None => writeln!(f, "the fixed bits")?,
            Some(rule) => writeln!(f, "{rule}")?,
        }
    }
    Ok(())
}

// The words that were listed, a line each, and how the listing goes on: no word is left out unsaid.
fn tell_list<W: fmt::Write>(
    f: &mut fmt::Formatter<W>,
    words: &[u64],
    rest: Option<Listing>,
) -> fmt::Result {
    for word in words {
        writeln!(f, "{word} ({word:#x})")?;
    }
    let Some(Listing { from, most }) = rest else {
        return Ok(());
    };
    writeln!(
        f,
        "# at most {WORDS} words at once: list from {from} {most} goes on"
    )
}

// `12 (0xc) meets every rule`, or `10 (0xa) fails rule late: x + 5 <= 3`, a line a rule.
fn tell_why<W: fmt::Write>(
    f: &mut fmt::Formatter<W>,
    rules: Rules<'_>,
    word: u64,
    failed: &[u64],
) -> fmt::Result {
    if failed.is_empty() {
        return writeln!(f, "{word} ({word:#x}) meets every rule");
    }
    for &number in failed {
        writeln!(
            f,
            "{word} ({word:#x}) fails {}",
            rules.rule(number as usize)
        )?;
    }
    Ok(())
}

// What stands, so that it can be read again: the width, then rules and marks in their order.
fn tell_sheet<W: fmt::Write>(f: &mut fmt::Formatter<W>, rules: Rules<'_>) -> fmt::Result {
    writeln!(f, "word {}", rules.sheet.width)?;
    for number in rules.in_force() {
        tell_marks(f, rules, number)?;
        let NamedRule { name, text, .. } = rules.rule(number);
        if let Some(name) = name {
            write!(f, "{name}: ")?;
        }
        writeln!(f, "{text}  # rule {number}")?;
    }
    tell_marks(f, rules, rules.sheet.count)
}

// The marks that were set when there were so many rules.
fn tell_marks<W: fmt::Write>(
    f: &mut fmt::Formatter<W>,
    rules: Rules<'_>,
    count: usize,
) -> fmt::Result {
    for &mark in rules.marks() {
        if mark == count {
            writeln!(f, "mark")?;
        }
    }
    Ok(())
}

// `rule late: x + 5 <= 3`, or `rule 0: x + 5 <= 3`.
impl fmt::Display for NamedRule<'_> {
    fn fmt<W: fmt::Write>(&self, f: &mut fmt::Formatter<W>) -> fmt::Result {
        match self.name {
            Some(name) => write!(f, "rule {name}: {}", self.text),
            None => write!(f, "rule {}: {}", self.number, self.text),
        }
    }
}
