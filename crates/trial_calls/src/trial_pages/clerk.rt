// The clerk's page: how it was opened, what stands on it, in order, and beside it the pile of what was struck out and waits.
use crate::sheets::{gone_back, opened_in};
use crate::trial_pages::lines::{LINES, Line, Lines};
use page::Opening;
use sheet::{Call, Sheet};
use word::Edition;

/// What it was opened with; the lines that stand, the newest last; and those of the pile, the one next to come back last. A stretch lies
/// on the pile with its mark on top. Where no place is free for a line more it is left out: a desk that accepts it is seen to differ.
#[derive(Clone, Copy)]
pub struct Page {
    pub opening: Opening,
    stands: Lines,
    pile: Lines,
}

impl Page {
    /// The page before any opening: the blank sheet has width 0, and is of the old edition.
    pub fn blank() -> Page {
        Page::new(Opening {
            width: 0,
            edition: Edition::Old,
        })
    }

    /// A page with nothing on it, and nothing beside it.
    pub fn new(opening: Opening) -> Page {
        Page {
            opening,
            stands: Lines::none(),
            pile: Lines::none(),
        }
    }

    /// Writes an accepted call down.
    pub fn write(&mut self, call: Call) {
        match call {
            Call::Open(opening) => *self = Page::new(opening),
            Call::Add(_, rule) => self.add(Line::Rule(rule)),
            Call::Mark => self.add(Line::Mark),
            Call::Back => self.strike(),
            Call::Forward => self.write_back(),
        }
    }

    /// Whether something lies on the pile.
    pub fn waits(&self) -> bool {
        !self.pile.as_slice().is_empty()
    }

    // One line more, and the pile cleared.
    fn add(&mut self, line: Line) {
        self.stands.push(line);
        self.pile.clear();
    }

    // The newest mark struck, and what was written after it: line by line, until the mark lies on the pile.
    fn strike(&mut self) {
        for _ in 0..LINES {
            let line = self.stands.pop().unwrap_or(Line::Mark);
            self.pile.push(line);
            if line == Line::Mark {
                return;
            }
        }
    }

    // The stretch on top of the pile written back: line by line, until the mark of another lies on top, or nothing does.
    fn write_back(&mut self) {
        for _ in 0..LINES {
            let line = self.pile.pop().unwrap_or(Line::Mark);
            self.stands.push(line);
            if !matches!(self.pile.as_slice().last(), Some(Line::Rule(_))) {
                return;
            }
        }
    }

    /// A sheet opened afresh at the page's width and edition, given what stands on the page, then every stretch that waits, the one next to
    /// come back first, and then taken back once for each.
    pub fn fresh(&self) -> Sheet {
        let opened = opened_in(self.opening.width, self.opening.edition);
        let lines = self.stands.as_slice();
        let stands = lines.iter().fold(opened, |sheet, line| line.given(sheet));
        let pile = self.pile.as_slice();
        let lines = pile.iter().rev();
        let all = lines.fold(stands, |sheet, line| line.given(sheet));
        let marks = pile.iter().filter(|line| **line == Line::Mark);
        marks.fold(all, |sheet, _| gone_back(sheet))
    }
}
