// What a statement is answered, as values, and what answers in words and as objects share: rules with their texts and names, and how many
// words there are.

use chain::Link;
use counting::Share;
use dialogue::upshot::Response;
use line::{Listing, Statement};
use naming::MOST;
use rule::Rule;
use sheet::{Reply, Sheet};
use std::fmt;
use std::ops::Range;
use word::Width;
use word::line_width::width_of;

/// How many words are listed at most.
pub const WORDS: usize = 512;

/// What is told: the number of a line, what it says, what that is answered, and the sheet then; the names of its rules; and what was lent
/// for numbers and for words.
#[derive(Clone, Copy)]
pub struct Told<'a> {
    pub line: u64,
    pub statement: Statement,
    pub response: Response,
    pub sheet: &'a Sheet,
    pub names: &'a [[u8; MOST]; Rule::LIMIT],
    pub numbers: &'a [u64],
    pub words: &'a [u64],
}

/// What a statement is answered, as values: the numbers of a link are its first word, its last and its reason.
#[derive(Clone, Copy)]
pub enum Answer<'a> {
    NoWord(&'a [[u64; Link::NUMBERS]]),
    OneWord(u64),
    ManyWords {
        count: u128,
        smallest: u64,
        largest: u64,
    },
    Count(u128),
    List {
        words: &'a [u64],
        rest: Option<Listing>,
    },
    Why {
        word: u64,
        failed: &'a [u64],
    },
    Shown,
}

impl<'a> Told<'a> {
    /// The answer, where there is one.
    pub fn answer(self) -> Option<Answer<'a>> {
        match (self.response, self.statement) {
            (Response::Asked(reply), _) => Some(self.asked(reply)),
            (Response::Counted(share), _) => Some(Answer::Count(count_of(share))),
            (Response::Listed(listing), Statement::List(wanted)) => {
                let words = first(listing.written, self.words);
                let rest = rest_of(wanted, words, words_of(self.sheet.width));
                Some(Answer::List { words, rest })
            }
            (Response::Blamed(listing), Statement::Why(word)) => {
                let failed = first(listing.written, self.numbers);
                Some(Answer::Why { word, failed })
            }
            (Response::Shown, _) => Some(Answer::Shown),
            _ => None,
        }
    }

    fn asked(self, reply: Reply) -> Answer<'a> {
        let kept = reply.kept;
        match kept.verdict {
            0 => {
                let (links, _) = self.numbers.as_chunks();
                Answer::NoWord(first(reply.links, links))
            }
            1 => Answer::OneWord(kept.smallest),
            _ => Answer::ManyWords {
                count: count_of(counting::count(*self.sheet)),
                smallest: kept.smallest,
                largest: kept.largest,
            },
        }
    }

    /// The rules of the sheet.
    pub fn rules(self) -> Rules<'a> {
        Rules {
            sheet: self.sheet,
            names: self.names,
        }
    }
}

// The first so many, or all where there are fewer.
fn first<T>(count: usize, all: &[T]) -> &[T] {
    &all[..count.min(all.len())]
}

// The listing that goes on where this one filled what is lent and more words were wanted: none where it ends at the top word.
fn rest_of(wanted: Listing, words: &[u64], size: u128) -> Option<Listing> {
    let most = wanted.most.saturating_sub(WORDS as u64);
    let from = words.last()?.checked_add(1)?;
    if words.len() < WORDS || most == 0 || size <= u128::from(from) {
        return None;
    }
    Some(Listing { from, most })
}

// How many words fit: 2^64 is no number of 64 bits.
fn count_of(share: Share) -> u128 {
    u128::from(share.quotient) * 0x1_0000_0000 + u128::from(share.remainder)
}

/// How many words there are of so many bits.
pub fn words_of(bits: u64) -> u128 {
    1 << bits.min(Width::LIMIT)
}

/// The rules of a sheet, with their names.
#[derive(Clone, Copy)]
pub struct Rules<'a> {
    pub sheet: &'a Sheet,
    names: &'a [[u8; MOST]; Rule::LIMIT],
}

impl<'a> Rules<'a> {
    /// A rule, by its number.
    pub fn rule(self, number: usize) -> NamedRule<'a> {
        let rules = &self.sheet.rules;
        NamedRule {
            number,
            name: self.name(number),
            text: Text {
                rule: rules.get(number).copied().unwrap_or(Rule::NONE),
                bits: self.sheet.width,
            },
        }
    }

    /// The rule that a link names as its reason, or none where that is the fixed bits.
    pub fn reason(self, reason: u64) -> Option<NamedRule<'a>> {
        if reason == Link::BITS {
            return None;
        }
        Some(self.rule(reason as usize))
    }

    // A name has letters, digits, `_`, `.` and `-` alone.
    fn name(self, number: usize) -> Option<&'a str> {
        let names = self.names;
        let row = names.get(number)?;
        let name = row.get(..naming::length(row))?;
        str::from_utf8(name).ok().filter(|name| !name.is_empty())
    }

    /// The numbers of the rules in force.
    pub fn in_force(self) -> Range<usize> {
        0..self.sheet.count.min(Rule::LIMIT)
    }

    /// For each mark in force, how many rules there were when it was set.
    pub fn marks(self) -> &'a [usize] {
        first(self.sheet.marked, &self.sheet.marks)
    }
}

/// A rule of a sheet: its number, its name where it has one, and its text.
#[derive(Clone, Copy)]
pub struct NamedRule<'a> {
    pub number: usize,
    pub name: Option<&'a str>,
    pub text: Text,
}

/// The text of a rule on a sheet of so many bits, as `x + 5 <= 3`.
#[derive(Clone, Copy)]
pub struct Text {
    rule: Rule,
    bits: u64,
}

impl fmt::Display for Text {
    fn fmt<W: fmt::Write>(&self, f: &mut fmt::Formatter<W>) -> fmt::Result {
        let mut text = [0; wording::ROOM];
        let end = wording::put_rule(&mut text, 0, self.rule, width_of(self.bits));
        let written = first(end, &text);
        f.write_str(str::from_utf8(written).map_err(|_| fmt::Error)?)
    }
}
