// Lines one after another on a sheet, up to the first mistake or refusal: each does what its call does, and nothing after that
// one is done or answered.
#![tactic(auto)]

pub mod saying;
pub mod upshot;

ghost use Rattle.std.specs.Prelude.{◌≡◌, false};
ghost use Rattle.sheet.specs.Record.{blank};
ghost use Rattle.dialogue.specs.saying.Says.{lent};
ghost use Rattle.dialogue.specs.Hears.{Hears};
ghost use Rattle.dialogue.specs.Takes.{Takes, taken};

use crate::upshot::Response;
use line::{Line, Statement};
use sheet::Sheet;
use word::line_width::width_of;

/// The sheet as it is, and whether a mistake or a refusal came.
#[derive(Clone, Copy)]
pub struct Dialogue {
    pub sheet: Sheet,
    pub stopped: bool,
}

/// A line as it was read, and what its statement is answered.
#[derive(Clone, Copy)]
pub struct Hearing {
    pub line: Line,
    pub response: Response,
}

impl Dialogue {
    /// Nothing was said.
    pub fn start() -> Dialogue
        ensures { (result.sheet ≡ blank) × (result.stopped ≡ false) }
    {
        Dialogue {
            sheet: Sheet::blank(),
            stopped: false,
        }
    }

    /// Does what a statement says, and gives its answer. A chain, or the numbers of rules that a word fails, are written to `numbers`,
    /// and words that fit to `words`. After a stop nothing is done, and nothing is answered.
    pub fn take(
        &mut self,
        statement: Statement,
        numbers: &mut [u64; Sheet::LENT],
        words: &mut [u64],
    ) -> Response
        ensures { Takes self.old statement (lent numbers.old words.old) (lent numbers.new words.new) (taken self.new result) }
    {
        if self.stopped {
            return Response::Silent;
        }
        match saying::says(&mut self.sheet, statement, numbers, words) {
            Ok(response) => response,
            Err(stop) => {
                self.stopped = true;
                Response::from(stop)
            }
        }
    }

    /// Reads a line, without its byte 10, at the width of the open sheet, and does what it says.
    pub fn hear(
        &mut self,
        text: &[u8],
        numbers: &mut [u64; Sheet::LENT],
        words: &mut [u64],
    ) -> Hearing
        ensures { Hears self.old text.now (lent numbers.old words.old) (lent numbers.new words.new) self.new result }
    {
        let line = line::read(text, width_of(self.sheet.width));
        let response = self.take(line.statement, numbers, words);
        Hearing { line, response }
    }
}
