// Answers as objects of JSON, one a line, on standard output. Words and counts may be above 2^53, which many readers of JSON round: they are
// strings of decimal digits. A name has letters, digits, `_`, `.` and `-` alone, and a rule's text no quote, so that none is escaped.

use crate::printing::{Answer, NamedRule, Rules, Told, words_of};
use chain::Link;
use line::Listing;
use std::fmt;
use std::io::Result;

/// Tells what a statement is answered, where it is answered anything.
pub fn tell(rt: &impl Print, told: Told<'_>) -> Result<()> {
    rt.print(Json(told))
}

/// What is told as an object, to the end of the line: nothing where a statement is answered nothing.
#[derive(Clone, Copy)]
pub struct Json<'a>(pub Told<'a>);

impl fmt::Display for Json<'_> {
    fn fmt<W: fmt::Write>(&self, f: &mut fmt::Formatter<W>) -> fmt::Result {
        let Json(told) = *self;
        let Some(answer) = told.answer() else {
            return Ok(());
        };
        write!(f, r#"{{"line":{},"#, told.line)?;
        tell_members(f, told, answer)?;
        writeln!(f, "}}")
    }
}

// The members of an object beside its line.
fn tell_members<W: fmt::Write>(
    f: &mut fmt::Formatter<W>,
    told: Told<'_>,
    answer: Answer<'_>,
) -> fmt::Result {
    let rules = told.rules();
    let bits = told.sheet.width as usize;
    let size = words_of(told.sheet.width);
    match answer {
        Answer::NoWord(links) => tell_chain(f, rules, links),
        Answer::OneWord(x) => write!(f, r#""ask":"one","word":"{x}","bits":"{x:0bits$b}""#),
        Answer::ManyWords {
            count,
            smallest,
            largest,
        } => {
            write!(f, r#""ask":"many","count":"{count}","of":"{size}","#)?;
            write!(f, r#""smallest":"{smallest}","largest":"{largest}""#)
        }
        Answer::Count(count) => write!(f, r#""count":"{count}","of":"{size}""#),
        Answer::List { words, rest } => tell_list(f, words, rest),
        Answer::Why { word, failed } => tell_why(f, rules, word, failed),
        Answer::Shown => tell_sheet(f, rules),
    }
}

// `"ask":"none","chain":[{"from":"0","to":"10","rule":0,"name":"late","text":"x + 5 <= 3"}]`.
fn tell_chain<W: fmt::Write>(
    f: &mut fmt::Formatter<W>,
    rules: Rules<'_>,
    links: &[[u64; Link::NUMBERS]],
) -> fmt::Result {
    write!(f, r#""ask":"none","chain":["#)?;
    for (i, &[from, to, reason]) in links.iter().enumerate() {
        write!(f, r#"{}{{"from":"{from}","to":"{to}","#, comma(i))?;
        match rules.reason(reason) {
            None => write!(f, r#""rule":"bits"}}"#)?,
            Some(rule) => write!(f, "{}}}", Members(rule))?,
        }
    }
    write!(f, "]")
}

// `"list":["11","12"]`, and `"next":"13"` where the listing goes on there.
fn tell_list<W: fmt::Write>(
    f: &mut fmt::Formatter<W>,
    words: &[u64],
    rest: Option<Listing>,
) -> fmt::Result {
    write!(f, r#""list":["#)?;
    for (i, word) in words.iter().enumerate() {
        write!(f, r#"{}"{word}""#, comma(i))?;
    }
    let Some(Listing { from, .. }) = rest else {
        return write!(f, "]");
    };
    write!(f, r#"],"next":"{from}""#)
}

// `"why":"10","fails":[{"rule":0,"name":"late","text":"x + 5 <= 3"}]`.
fn tell_why<W: fmt::Write>(
    f: &mut fmt::Formatter<W>,
    rules: Rules<'_>,
    word: u64,
    failed: &[u64],
) -> fmt::Result {
    write!(f, r#""why":"{word}","fails":["#)?;
    for (i, &number) in failed.iter().enumerate() {
        write!(
            f,
            "{}{{{}}}",
            comma(i),
            Members(rules.rule(number as usize))
        )?;
    }
    write!(f, "]")
}

// `"show":{"width":16,"rules":[{"rule":0,"name":"late","text":"x + 5 <= 3"}],"marks":[1]}`.
fn tell_sheet<W: fmt::Write>(f: &mut fmt::Formatter<W>, rules: Rules<'_>) -> fmt::Result {
    write!(f, r#""show":{{"width":{},"rules":["#, rules.sheet.width)?;
    for number in rules.in_force() {
        write!(f, "{}{{{}}}", comma(number), Members(rules.rule(number)))?;
    }
    write!(f, r#"],"marks":["#)?;
    for (i, mark) in rules.marks().iter().enumerate() {
        write!(f, "{}{mark}", comma(i))?;
    }
    write!(f, "]}}")
}

// A rule as an object's members: `"rule":0,"name":"late","text":"x + 5 <= 3"`.
#[derive(Clone, Copy)]
struct Members<'a>(NamedRule<'a>);

impl fmt::Display for Members<'_> {
    fn fmt<W: fmt::Write>(&self, f: &mut fmt::Formatter<W>) -> fmt::Result {
        let NamedRule { number, name, text } = self.0;
        write!(f, r#""rule":{number}"#)?;
        if let Some(name) = name {
            write!(f, r#","name":"{name}""#)?;
        }
        write!(f, r#","text":"{text}""#)
    }
}

// Between what is listed.
fn comma(place: usize) -> &'static str {
    if place == 0 { "" } else { "," }
}
