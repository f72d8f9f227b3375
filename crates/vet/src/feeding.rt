// A run on an input: its lines are taken one after another, and answered.

use crate::lines::Listener;
use crate::manner::Manner;
use crate::status::Verdict;
use crate::{checking, lines};
use dialogue::Dialogue;
use naming::MOST;
use rule::Rule;
use sheet::Sheet;
use std::io::{Eprint, ErrorKind, Result};
use std::rt::Files;
use telling::printing::{Told, WORDS};

// How a run stands: lines are taken and answered; nobody takes the answers any more, which is no failure; a read or a write failed; or
// a line is mistaken.
#[derive(Clone, Copy, PartialEq, Eq)]
enum Course {
    Going,
    Untaken,
    Failed,
    Mistaken,
}

impl Course {
    // Whether lines are taken: after a failure or a mistake none is.
    fn takes_lines(self) -> bool {
        self == Course::Going || self == Course::Untaken
    }

    // The program's status.
    fn status(self) -> u8 {
        match self {
            Course::Going | Course::Untaken => 0,
            Course::Failed => 1,
            Course::Mistaken => 2,
        }
    }
}

/// What is written; the dialogue, and the names of its rules; the number of lines; and how the run stands.
#[derive(Clone, Copy)]
pub struct Run {
    manner: Manner,
    dialogue: Dialogue,
    names: [[u8; MOST]; Rule::LIMIT],
    line: u64,
    course: Course,
}

impl Run {
    pub fn start(manner: Manner) -> Run {
        Run {
            manner,
            dialogue: Dialogue::start(),
            names: [[0; MOST]; Rule::LIMIT],
            line: 0,
            course: Course::Going,
        }
    }

    /// Takes all lines of standard input, and gives the status. At the end a chain is checked, or the rules in force are written, where
    /// they are wanted and no mistake came.
    pub fn answer_all(&mut self, rt: &HostRuntime) -> u8 {
        if let Err(error) = lines::listen(rt, rt.stdin(), self) {
            lines::say_failed(b"vet: standard input", error);
            self.course = Course::Failed;
        }
        if self.manner == Manner::Check {
            return self.check(rt).status();
        }
        if self.course.takes_lines() {
            let written = self.manner.write_out(rt, self.dialogue.sheet);
            self.written(written);
        }
        self.course.status()
    }

    // What is found of a chain. What failed is neither yes nor no.
    fn check(&self, rt: &(impl Files + Print + Eprint)) -> Verdict {
        if !self.course.takes_lines() {
            return Verdict::Unsaid;
        }
        checking::check(rt, self.dialogue.sheet, &self.names)
    }

    // Takes a line and answers it. The name of an accepted rule is kept at the number that the rule gets.
    fn answer(&mut self, rt: &(impl Print + Eprint), text: &[u8]) {
        let count = self.dialogue.sheet.count;
        let mut numbers = [0; Sheet::LENT];
        let mut words = [0; WORDS];
        let heard = self.dialogue.hear(text, &mut numbers, &mut words);
        let statement = heard.line.statement;
        if !self.dialogue.stopped {
            let name = match heard.line.name {
                Some(name) => lines::name_in(name, text),
                None => b"",
            };
            naming::keep(&mut self.names, statement, count, name);
        }
        let told = Told {
            line: self.line,
            statement,
            response: heard.response,
            sheet: &self.dialogue.sheet,
            names: &self.names,
            numbers: &numbers,
            words: &words,
        };
        let answered = self.manner.answer(rt, told);
        if telling::mistakes::say(rt, told, text) {
            self.course = Course::Mistaken;
        }
        self.written(answered);
    }

    // Ends the run where an answer could not be written. Nobody taking the answers any more is no failure.
    fn written(&mut self, answered: Result<()>) {
        let Err(error) = answered else {
            return;
        };
        if !self.course.takes_lines() {
            return;
        }
        if error.kind() == ErrorKind::BrokenPipe {
            self.course = Course::Untaken;
            return;
        }
        lines::say_failed(b"vet: standard output", error);
        self.course = Course::Failed;
    }
}

impl Listener for Run {
    fn listens(&self) -> bool {
        self.course == Course::Going
    }

    fn take<P: Print + Eprint>(&mut self, rt: &P, text: &[u8]) {
        self.line = self.line.wrapping_add(1);
        if self.course.takes_lines() {
            self.answer(rt, text);
        }
    }
}
