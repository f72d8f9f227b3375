// Lines of the clerk's, one after another.
use crate::sheets::{added, marked};
use rule::Rule;
use sheet::Sheet;

/// The most rules and marks that stand and wait.
pub const LINES: usize = Rule::LIMIT + Sheet::MARKS;

/// A mark or a rule.
#[derive(Clone, Copy, Default, PartialEq, Eq)]
pub enum Line {
    #[default]
    Mark,
    Rule(Rule),
}

impl Line {
    /// The sheet that is left by giving the line.
    pub fn given(self, sheet: Sheet) -> Sheet {
        match self {
            Line::Mark => marked(sheet),
            Line::Rule(rule) => added(sheet, rule),
        }
    }
}

/// The first so many of the places.
#[derive(Clone, Copy)]
pub struct Lines {
    places: [Line; LINES],
    length: usize,
}

impl Lines {
    pub fn none() -> Lines {
        Lines {
            places: [Line::Mark; LINES],
            length: 0,
        }
    }

    pub fn as_slice(&self) -> &[Line] {
        &self.places[..self.length.min(LINES)]
    }

    /// One line more. Where no place is free for it, it is left out.
    pub fn push(&mut self, line: Line) {
        if self.length < LINES {
            self.places[self.length] = line;
            self.length += 1;
        }
    }

    pub fn clear(&mut self) {
        self.length = 0;
    }

    /// Takes the last line off.
    pub fn pop(&mut self) -> Option<Line> {
        self.length = self.length.checked_sub(1)?;
        self.places.get(self.length).copied()
    }
}
