// Calls on sheets that are all but full, so that places run out, steps back free them and steps forward take them again. After each
// call the desk's sheet is compared with the clerk's page, as in long sequences.
use crate::long::Work;
use page::Opening;
use rule::Rule;
use sheet::{Call, Sheet};
use trial::trial_tally::{Split, total};
use trial_calls::sheets::opened_in;
use trial_calls::trial_draws::draw;
use trial_calls::trial_pages::clerk::Page;
use word::Edition;

const SHEETS: u64 = 10;

const CALLS: u64 = 30;

// A sheet is given so many rules, and so many marks, each of them before one of the last rules.
const GIVEN: usize = Rule::LIMIT - 4;

const MARKED: usize = Sheet::MARKS - 2;

const UNMARKED: usize = GIVEN - MARKED;

// Calls enough for it: of the rules that are drawn more than half are accepted.
const DRAWN: usize = 2 * Rule::LIMIT + Sheet::MARKS;

/// A sheet of each width from 1 on in each edition, and of each from 64 down in the new one.
pub fn all() -> Split {
    total((0..SHEETS).map(|i| {
        sequence(i + 1, i + 1, Edition::Old)
            .plus(sequence(SHEETS + i + 1, i + 1, Edition::New))
            .plus(sequence(2 * SHEETS + i + 1, 64 - i, Edition::New))
    }))
}

fn sequence(seed: u64, width: u64, edition: Edition) -> Split {
    given(seed, width, edition).drawn(CALLS)
}

// A desk and a clerk at work on a sheet that is all but full.
fn given(seed: u64, width: u64, edition: Edition) -> Work {
    let mut work = Work {
        seed: draw::further(seed),
        sheet: opened_in(width, edition),
        page: Page::new(Opening { width, edition }),
    };
    for _ in 0..DRAWN {
        if work.sheet.count < GIVEN {
            fill(&mut work);
        }
    }
    work
}

// One call more, a drawn rule or a mark. Nothing is compared.
fn fill(work: &mut Work) {
    let Sheet {
        width,
        count,
        marked,
        edition,
        ..
    } = work.sheet;
    let call = if marked < MARKED && UNMARKED + marked == count {
        Call::Mark
    } else {
        let rule = draw::rule(work.seed, draw::further(work.seed), width);
        Call::Add(edition, rule)
    };
    let _ = work.made(call);
}
