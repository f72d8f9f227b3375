// A sheet asked by calls in each edition that has its width, and the answers compared with what is expected, and with each other.
ghost use Rattle.std.specs.Prelude.{◌≤◌, length};
ghost use Rattle.rule.specs.Meaning.{RULES};

use crate::expected::{Expected, NUMBERS};
use crate::trial_editions::counts::{Both, Seen};
use page::Opening;
use rule::Rule;
use search::verdict::Kept;
use sheet::{Answer, Reply, Sheet};
use trial::trial_direct::rules;
use trial::trial_tally::{Count, Tally};
use word::Edition;

/// What a lent number is before the call. The top word of 64 bits would not do: a chain has it.
pub const UNTOUCHED: u64 = 0x5ad5_c0de_2b1f_93a7;

// The widest word of the old edition.
const OLD: u64 = 32;

// No verdict: a refusal.
const REFUSED: u64 = 3;

/// The rules, asked in the new edition and, where the old has the width, in both.
pub fn in_editions(
    bits: u64,
    top: u64,
    rules: &[Rule],
    expected: Expected,
    buffer: &[u64; NUMBERS],
) -> Both {
    let mut numbers = [UNTOUCHED; NUMBERS];
    let new = answered(Edition::New, bits, rules, &mut numbers);
    let right = new == expected && numbers == *buffer;
    let seen = Seen::one(expected, buffer, top, right);
    if OLD < bits {
        return Both {
            new: seen,
            ..Both::none()
        };
    }
    let mut old_numbers = [UNTOUCHED; NUMBERS];
    let old = answered(Edition::Old, bits, rules, &mut old_numbers);
    let old_right = old == expected && old_numbers == *buffer;
    Both {
        new: seen,
        old: Seen::one(expected, buffer, top, old_right),
        editions: Tally::one(new == old && numbers == old_numbers),
    }
}

/// What is answered to the rules on a sheet that is opened in the edition, and added to in it; or the first refusal.
pub fn answered(edition: Edition, bits: u64, rules: &[Rule], out: &mut [u64; NUMBERS]) -> Expected {
    told(filled(edition, bits, rules), out)
}

/// The sheet, or the first refusal.
pub fn filled(edition: Edition, bits: u64, rules: &[Rule]) -> Answer {
    let opening = Opening {
        width: bits,
        edition,
    };
    let mut answer = Sheet::blank().open(opening);
    for rule in rules {
        answer = added(answer, edition, *rule);
    }
    answer
}

/// The sheet with one rule more, or the first refusal.
pub fn added(answer: Answer, edition: Edition, rule: Rule) -> Answer {
    if answer.number != 0 {
        return answer;
    }
    answer.sheet.add(edition, rule)
}

/// The record of a sheet with the rules, each without the constant that it does not use, and no mark, of which so much is kept.
pub fn record(edition: Edition, bits: u64, rules: &[Rule], kept: Expected) -> Sheet {
    let mut sheet = Sheet {
        width: bits,
        count: rules.len(),
        kept: Kept {
            verdict: kept.verdict,
            smallest: kept.smallest,
            largest: kept.largest,
        },
        given: rules.len(),
        edition,
        ..Sheet::blank()
    };
    for (place, rule) in sheet.rules.iter_mut().zip(rules) {
        *place = rules::used(*rule);
    }
    sheet
}

/// What the sheet answers when it is asked, or the refusal by which there is none.
pub fn told(answer: Answer, out: &mut [u64; NUMBERS]) -> Expected {
    if answer.number == 0 {
        asked(answer.sheet, out)
    } else {
        said(sheet::refusal(answer.number))
    }
}

/// What a record answers when it is asked.
pub fn asked(sheet: Sheet, out: &mut [u64; NUMBERS]) -> Expected {
    said(sheet.ask(out))
}

// What the reply says. A refusal says what is never expected.
fn said(reply: Reply) -> Expected {
    let Reply {
        number,
        kept,
        links,
        ..
    } = reply;
    Expected {
        verdict: if number == 0 { kept.verdict } else { REFUSED },
        smallest: kept.smallest,
        largest: kept.largest,
        links,
    }
}
