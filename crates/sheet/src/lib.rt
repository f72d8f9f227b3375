// The sheet and the calls on it. Each call takes any record and any numbers, and refuses what the paper refuses, in its order. The
// calls work on a slate (`laid`); by value a call lays the record out there, calls, and packs it again.
#![tactic(auto)]

pub mod demands;
pub mod laid_force;
pub mod laid_rows;
pub mod marks;
pub mod slate;

ghost use Rattle.std.specs.Prelude.{◌≡◌};
ghost use Rattle.sheet.specs.Record.{blank};

mod calling;
pub mod laid;
pub mod slate_ask;
pub mod slate_make;
pub mod slate_whole;

pub use crate::slate::{Head, Said};
pub use crate::slate_ask::{Reply, refusal};
pub use crate::slate_make::Call;
use chain::Link;
use rule::Rule;
use search::verdict::Kept;
use word::Edition;

// A rule desk's sheet: the width, the rules in the order added, for each mark how many rules there were when it was set, what is
// kept of the rules in force, and the edition that it was opened in. The first `count` rules and the first `marked` marks are in force; the rules up to `given` and the next
// `waiting` marks wait to come back. Places not in use hold zeros, and the blank sheet is all zeros, of the old edition.
#[derive(Clone, Copy, PartialEq, Eq)]
pub struct Sheet {
    pub width: u64,
    pub rules: [Rule; Rule::LIMIT],
    pub count: usize,
    pub marks: [usize; Sheet::MARKS],
    pub marked: usize,
    pub kept: Kept,
    pub given: usize,
    pub waiting: usize,
    pub edition: Edition,
}

// What a call answers: 0 or the number of a refusal, and the sheet as it is then.
#[derive(Clone, Copy, PartialEq, Eq)]
pub struct Answer {
    pub number: u64,
    pub sheet: Sheet,
}

impl Sheet {
    // The most marks that may be in force.
    pub const MARKS: usize = page::MARKS;

    // What asking wants of a full sheet.
    pub const LENT: usize = Link::ROOM;

    // The blank sheet, all zeros, of the old edition.
    pub fn blank() -> Sheet
        ensures { result ≡ blank }
    {
        Sheet {
            width: 0,
            rules: [Rule::NONE; Rule::LIMIT],
            count: 0,
            marks: [0; Sheet::MARKS],
            marked: 0,
            kept: Kept {
                verdict: 0,
                smallest: 0,
                largest: 0,
            },
            given: 0,
            waiting: 0,
            edition: Edition::Old,
        }
    }
}
