// Long sequences of calls. After each call, accepted or refused, the desk's sheet is the one that a fresh sheet comes to
// that is given what stands on the clerk's page and what waits beside it, and is taken back once for each stretch that waits.
use page::Opening;
use sheet::{Call, Sheet};
use trial::trial_direct::draw::next;
use trial::trial_tally::{Split, Tally, total};
use trial_calls::sheets::{added, case2, gone_back, marked, opened, opened_in};
use trial_calls::trial_draws::draw;
use trial_calls::trial_pages::calls::made;
use trial_calls::trial_pages::clerk::Page;
use word::Edition;

const SEQUENCES: u64 = 30;

const CALLS: u64 = 200;

/// A desk and a clerk at work: what the next call is drawn from, the desk's sheet, and the clerk's page.
#[derive(Drop)]
pub struct Work {
    pub seed: u64,
    pub sheet: Sheet,
    pub page: Page,
}

pub fn all() -> Split {
    total((1..=SEQUENCES).map(|seed| sequence(next(seed))))
}

// Calls from the blank sheet on.
fn sequence(seed: u64) -> Split {
    let work = Work {
        seed,
        sheet: Sheet::blank(),
        page: Page::blank(),
    };
    work.drawn(CALLS)
}

impl Work {
    /// So many drawn calls, each compared.
    pub fn drawn(mut self, calls: u64) -> Split {
        let mut compared = Split::none();
        for _ in 0..calls {
            compared = compared.plus(self.step());
        }
        compared
    }

    // One call more.
    fn step(&mut self) -> Split {
        let call = draw::drawn(self.seed, self.page.opening, self.page.waits());
        let number = self.made(call);
        compared(number, self.sheet, &self.page)
    }

    /// Makes a call on the desk, has the clerk write it down where it is accepted, and gives its number.
    pub fn made(&mut self, call: Call) -> u64 {
        let answer = made(self.sheet, call);
        self.seed = draw::further(self.seed);
        self.sheet = answer.sheet;
        if answer.number == 0 {
            self.page.write(call);
        }
        answer.number
    }
}

// A call accepted or refused, and the sheet that is left compared with the page.
fn compared(number: u64, left: Sheet, stands: &Page) -> Split {
    let kind = if number == 0 { 0 } else { 1 };
    Split::one(kind, left == stands.fresh())
}

/// Wrong pages: the clerk missed an add; missed a mark and a step back, so that the pile alone is wrong; took the edition for the other.
pub fn known() -> Tally {
    let page = Page::new(Opening {
        width: 4,
        edition: Edition::Old,
    });
    compared(0, added(opened(4), case2()), &page)
        .plus(compared(0, gone_back(marked(opened(4))), &page))
        .plus(compared(0, opened_in(4, Edition::New), &page))
        .joined()
}
