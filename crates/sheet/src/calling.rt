// The calls by value: the record is handed over whole to where it is laid out on a slate, the call is made there, and what comes back is a record
// again.
ghost use Rattle.std.specs.Prelude.{◌≡◌};
ghost use Rattle.page.specs.Calls.{add, back, forward, mark, open_at};
ghost use Rattle.sheet.specs.route.Held.{sheet_of};
ghost use Rattle.sheet.specs.route.Laid.{call_of};
ghost use Rattle.sheet.specs.Statements.{Asked, Outcome};

use crate::slate::Counts;
use crate::slate_whole::Whole;
use crate::{Answer, Call, Reply, Sheet};
use page::Opening;
use rule::Rule;
use word::Edition;

impl Sheet {
    // Opens a new sheet where the blank one is laid out. The old record is handed back where the width is refused, and is not read.
    pub fn open(self, opening: Opening) -> Answer
        ensures { Outcome self (open_at opening) result }
    {
        let none = Sheet::blank();
        let answer = called(none, Call::Open(opening));
        let number = answer.number;
        let is_refused = number != 0;
        if is_refused {
            return Answer {
                number,
                sheet: self,
            };
        }
        answer
    }

    // Adds a rule, from a frame of an edition.
    pub fn add(self, edition: Edition, rule: Rule) -> Answer
        ensures { Outcome self (add edition rule) result }
    {
        called(self, Call::Add(edition, rule))
    }

    // Sets a mark.
    pub fn mark(self) -> Answer
        ensures { Outcome self mark result }
    {
        called(self, Call::Mark)
    }

    // Goes back to the newest mark: strikes it and the rules added after it, which wait to come back.
    pub fn back(self) -> Answer
        ensures { Outcome self back result }
    {
        called(self, Call::Back)
    }

    // Brings back what was most recently taken back: its mark and its rules.
    pub fn forward(self) -> Answer
        ensures { Outcome self forward result }
    {
        called(self, Call::Forward)
    }

    // Says what is kept and, for "none", writes the chain. The sheet stays as it is.
    pub fn ask(self, out: &mut [u64]) -> Reply
        ensures { Asked self out.old out.new result }
    {
        crate::slate_whole::ask(whole(self), out)
    }
}

// A call on a record, sheet or not.
fn called(sheet: Sheet, call: Call) -> Answer
    ensures { Outcome sheet (call_of call) result }
{
    let after = crate::slate_whole::call(whole(sheet), call);
    let left = after.whole;
    let sheet = sheet_of(left);
    Answer {
        number: after.number,
        sheet,
    }
}

// A record's numbers, as a slate has them.
pub fn whole(sheet: Sheet) -> Whole
    ensures { sheet_of result ≡ sheet }
{
    let Sheet { rules, marks, .. } = sheet;
    Whole {
        opening: Opening {
            width: sheet.width,
            edition: sheet.edition,
        },
        counts: Counts {
            count: sheet.count,
            marked: sheet.marked,
            given: sheet.given,
            waiting: sheet.waiting,
        },
        kept: sheet.kept,
        rules,
        marks,
    }
}

// The record of such numbers.
fn sheet_of(whole: Whole) -> Sheet
    ensures { result ≡ sheet_of whole }
{
    let Whole {
        opening,
        counts,
        kept,
        rules,
        marks,
    } = whole;
    Sheet {
        width: opening.width,
        rules,
        count: counts.count,
        marks,
        marked: counts.marked,
        kept,
        given: counts.given,
        waiting: counts.waiting,
        edition: opening.edition,
    }
}
