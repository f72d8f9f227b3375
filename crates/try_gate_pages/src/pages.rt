// Sequences of calls with gates among them. After each call, accepted or refused, the number is the clerk's, and the desk's sheet is the
// one that a fresh sheet comes to that is given what stands on the clerk's page and what waits beside it.
use crate::counts::Counts;
use crate::draw;
use crate::draw::{Limits, Next};
use gate::Gate;
use page::Opening;
use rule::Rule;
use sheet::{Answer, Call, Sheet};
use trial::trial_direct::draw::next;
use trial::trial_gates::direct::Kind;
use trial::trial_tally::Tally;
use trial_calls::answers::looks;
use trial_calls::sheets::{gone_back, marked, opened};
use trial_calls::trial_draws::draw::{further, rule};
use trial_calls::trial_pages::calls::made;
use trial_calls::trial_pages::clerk::Page;
use word::Edition;

// Sequences from the blank sheet on, and sheets that are all but full, half of them in each edition; and the calls of each.
const SEQUENCES: u64 = 20;

const CALLS: u64 = 100;

const FULL: u64 = 4;

const MORE: u64 = 20;

// The calls that all but fill a sheet.
const GIVEN: u64 = 72;

// The patterns of 1, and of what is not a number.
const ONE: u32 = 0x3f80_0000;

const NO_NUMBER: u32 = 0x7fc0_0000;

// A desk and a clerk at work: what the next call is drawn from, the desk's sheet, the clerk's page and the fresh sheet of it.
#[derive(Drop)]
struct Work {
    seed: u64,
    sheet: Sheet,
    page: Page,
    fresh: Sheet,
}

/// Calls from the blank sheet on; then calls that all but fill a sheet, of the old edition or the new, and more.
pub fn all() -> Counts {
    let mut counts = Counts::none();
    for i in 1..=SEQUENCES {
        let mut work = Work::begun(next(next(i)), Page::blank());
        work.draw(CALLS, &mut counts);
    }
    for i in 1..=FULL {
        let edition = if i % 2 == 1 {
            Edition::Old
        } else {
            Edition::New
        };
        let mut work = Work::begun(next(next(i)), empty(edition));
        work.fill(&mut counts);
        work.draw(MORE, &mut counts);
    }
    counts
}

// A page that takes gates, with nothing on it.
fn empty(edition: Edition) -> Page {
    Page::new(Opening {
        width: Gate::WIDTH,
        edition,
    })
}

impl Work {
    // At work on a page with nothing on it.
    fn begun(seed: u64, page: Page) -> Work {
        let fresh = page.fresh();
        Work {
            seed,
            sheet: fresh,
            page,
            fresh,
        }
    }

    // So many calls more.
    fn draw(&mut self, calls: u64, counts: &mut Counts) {
        for _ in 0..calls {
            match draw::drawn(self.seed, self.page.opening, self.page.waits()) {
                Next::Set(limits) => self.set(limits, counts),
                Next::Other(call) => self.call(call, counts),
            }
        }
    }

    // Of eight calls six are gates, one is an add and the last a mark.
    fn fill(&mut self, counts: &mut Counts) {
        for i in 0..GIVEN {
            let Opening { width, edition } = self.page.opening;
            let more = next(self.seed);
            match i % 8 {
                3 => self.call(Call::Add(edition, rule(more, next(more), width)), counts),
                7 => self.call(Call::Mark, counts),
                _ => self.set(draw::some_limits(more), counts),
            }
        }
    }

    fn set(&mut self, limits: Limits, counts: &mut Counts) {
        let number = refusal(self.fresh, limits);
        if number == 0 {
            write_gate(&mut self.page, limits);
        }
        let answer = gating::set(self.sheet, limits.gate());
        counts.gate(number, self.take(answer, number));
    }

    // A call that is no gate has the number that it has on the fresh sheet.
    fn call(&mut self, call: Call, counts: &mut Counts) {
        let number = made(self.fresh, call).number;
        if number == 0 {
            self.page.write(call);
        }
        let answer = made(self.sheet, call);
        counts.other(number, self.take(answer, number));
    }

    // What is drawn from next, and the sheet as the call left it; and whether it is answered as the clerk has it.
    fn take(&mut self, answer: Answer, number: u64) -> bool {
        self.seed = further(self.seed);
        self.sheet = answer.sheet;
        self.fresh = self.page.fresh();
        is_answered(answer, number, self.fresh)
    }
}

fn is_answered(answer: Answer, number: u64, sheet: Sheet) -> bool {
    answer == Answer { number, sheet }
}

// The number of a gate on a sheet, by the paper: 1, 13, 14, 6, or 0.
fn refusal(sheet: Sheet, limits: Limits) -> u64 {
    if sheet.width == 0 {
        return 1;
    }
    if sheet.width != 32 {
        return 13;
    }
    if !limits.are_numbers() {
        return 14;
    }
    if 196 < sheet.count { 6 } else { 0 }
}

// The rules of a gate, line by line.
fn write_gate(page: &mut Page, limits: Limits) {
    if let Some(rules) = limits.rules() {
        write_rules(page, &rules);
    }
}

fn write_rules(page: &mut Page, rules: &[Rule]) {
    for rule in rules {
        page.write(Call::Add(page.opening.edition, *rule));
    }
}

/// Wrong pages: the clerk missed a gate; missed its last rule; kept what waits. And a wrong number: 14 before 13.
pub fn known() -> Tally {
    let sheet = opened(Gate::WIDTH);
    let narrow = opened(31);
    let mut missing = empty(Edition::Old);
    if let Some(rules) = at_least(ONE).rules() {
        write_rules(&mut missing, &rules[..3]);
    }
    let mut piled = empty(Edition::Old);
    write_gate(&mut piled, at_least(ONE));
    piled.write(Call::Mark);
    piled.write(Call::Back);
    looks(&[
        wrong(sheet, &empty(Edition::Old)),
        wrong(sheet, &missing),
        wrong(gone_back(marked(sheet)), &piled),
        is_answered(gating::set(narrow, at_least(NO_NUMBER).gate()), 14, narrow),
    ])
}

// At least 1, set on a sheet and compared with a page.
fn wrong(sheet: Sheet, page: &Page) -> bool {
    let gate = at_least(ONE).gate();
    is_answered(gating::set(sheet, gate), 0, page.fresh())
}

fn at_least(low: u32) -> Limits {
    Limits {
        kind: Kind::Least,
        low,
        high: 0,
    }
}
