// What calls answer and leave, as the trials look at it.
ghost use Rattle.std.specs.Prelude.{◌≡◌, fold, map};
ghost use Rattle.trial.specs.trial_tally.Tally.{none, one, plus};

use search::verdict::Kept;
use sheet::{Answer, Reply, Sheet};
use trial::trial_direct::direct::UNTOUCHED;
use trial::trial_tally::{Tally, total};

// How many numbers a trial lends: one fewer than a sheet with one rule needs.
const LENT: usize = 3 * (4 * 1 + 1) - 1;

/// Several looks, each of which is right or not.
pub fn looks(right: &[bool]) -> Tally
    ensures { result ≡ fold plus none (map one right.now) }
{
    total(right.iter().map(|one| Tally::one(*one)))
}

pub fn accepted(answer: Answer) -> bool {
    answer.number == 0
}

/// Whether the call was refused with the number, and handed back the sheet that it was handed.
pub fn refused(answer: Answer, number: u64, was: Sheet) -> bool {
    answer == Answer { number, sheet: was }
}

/// Whether asking is refused with the number, and touches no number lent.
pub fn ask_refused(sheet: Sheet, number: u64) -> bool {
    let mut out = [UNTOUCHED; LENT];
    let reply = sheet.ask(&mut out);
    replied(reply, number, kept(0, 0, 0), 0) && untouched(&out, 0)
}

pub fn kept(verdict: u64, smallest: u64, largest: u64) -> Kept {
    Kept {
        verdict,
        smallest,
        largest,
    }
}

/// Whether the reply has just these numbers.
pub fn replied(reply: Reply, number: u64, kept: Kept, links: usize) -> bool {
    reply
        == Reply {
            number,
            kept,
            links,
        }
}

/// Whether the numbers from a place on are as they were lent.
pub fn untouched(out: &[u64], from: usize) -> bool {
    out.iter().skip(from).all(|number| *number == UNTOUCHED)
}
