// A net of words: up to 16 words with intervals and up to 32 joins of them at one width. The intervals are cut by one join after the
// other, round and round, for as many steps as the caller will pay for.
#![tactic(auto)]

pub mod net_step;
pub mod net_tests;
pub mod refusal;

ghost use Rattle.std.specs.Prelude.{◌≡◌, cond, suc, ◌<◌};
ghost use Rattle.net.specs.Net.{AllNamed, given};
ghost use Rattle.net.specs.net_tests.Fits.{JOINS};
ghost use Rattle.net.specs.route.Run.{ran, walked};

pub use crate::net_step::Join;
use crate::net_step::step;
pub use crate::refusal::Refusal;
use span::Interval;

/// A width, the words' intervals with how many are in use, and the joins with how many are in use.
#[derive(Clone, Copy)]
pub struct Net {
    pub width: u64,
    pub words: [Interval; Net::WORDS],
    pub count: usize,
    pub joins: [Join; Net::JOINS],
    pub joined: usize,
}

/// How a run ends: refused with a number, with an empty cut, with nothing left to change, or with the steps spent.
// The refusal is a number here, since that is the answer that callers are promised; what it says is `Net::refusal`.
#[derive(Clone, Copy, Debug, PartialEq, Eq)]
pub enum Ended {
    Refused(u64),
    Empty,
    Steady,
    Spent,
}

/// What a run answers: how it ended, the steps used, and the intervals. Places not in use are as they came.
#[derive(Clone, Copy, Debug, PartialEq, Eq)]
pub struct Answer {
    pub ended: Ended,
    pub steps: u64,
    pub words: [Interval; Net::WORDS],
}

impl Net {
    /// The most words of a net.
    pub const WORDS: usize = crate::net_step::WORDS;

    /// The most joins of a net.
    pub const JOINS: usize = crate::net_tests::JOINS;

    /// Cuts the intervals for as many steps as are paid for, one step a join, in order, round and round.
    pub fn run(self, pay: u64) -> Answer
        ensures { result ≡ ran self pay }
    {
        match self.refusal() {
            Some(refusal) => given(Ended::Refused(refusal.number()), 0, self.words),
            None => self.walk(pay),
        }
    }

    // The steps of a net that is not refused: it stops at the first of an empty cut, as many steps in a row as there are joins that
    // changed nothing, and the steps spent.
    #[tactic(auto, using(crate::proofs::SearchNetWalk::wanted), unfolding(crate::specs::route::Run::walked))]
    fn walk(self, pay: u64) -> Answer
        requires { AllNamed self }
        ensures { result ≡ walked self pay }
    {
        let mut words = self.words;
        let mut steps = 0;
        let mut quiet = 0;
        let mut empty = false;
        // by number, since the steps are counted, and are the answer
        'turns: loop {
            let steady = self.joined <= quiet;
            let spent = steps == pay;
            if empty {
                return given(Ended::Empty, steps, words);
            }
            if steady {
                return given(Ended::Steady, steps, words);
            }
            if spent {
                return given(Ended::Spent, steps, words);
            }
            let turn = (steps % self.joined as u64) as usize;
            let next = step(self.width, self.joins[turn], words);
            steps += 1;
            quiet = in_a_row(quiet, next.quiet);
            empty = next.empty;
            words = next.words;
        }
    }
}

fn given(ended: Ended, steps: u64, words: [Interval; Net::WORDS]) -> Answer
    ensures { result ≡ given ended steps words }
{
    Answer {
        ended,
        steps,
        words,
    }
}

// How many steps in a row changed nothing, after one more.
#[tactic(auto, using(crate::proofs::SearchInARow::wanted))]
fn in_a_row(before: usize, quiet: bool) -> usize
    requires { before < JOINS }
    ensures { result ≡ cond quiet (suc before) 0 }
{
    if quiet { before + 1 } else { 0 }
}
