// The plain rule, place by place: after each step every place is looked at, and each result that the join has for it cuts it.
use crate::trial_spans::expected::{Asked, common, reversed};
use crate::trial_spans::words;
use net::{Answer, Ended, Join, Net};
use span::{Interval, Joined, Op};

// Where a run stands: the words, the next join, and how many joins in a row left all words alone.
#[derive(Clone, Copy)]
struct Stand {
    pub words: [Interval; Net::WORDS],
    pub next: usize,
    pub row: usize,
}

/// A run, one step after the other, of a net that is not refused.
pub fn run(net: &Net, pay: u64) -> Answer {
    let mut stand = Stand {
        words: net.words,
        next: 0,
        row: 0,
    };
    for step in 0..pay {
        if stand.row == net.joined {
            return answer(Ended::Steady, step, stand.words);
        }
        let Some(after) = stand.after(net) else {
            return answer(Ended::Empty, step + 1, stand.words);
        };
        stand = after;
    }
    let ended = if stand.row == net.joined {
        Ended::Steady
    } else {
        Ended::Spent
    };
    answer(ended, pay, stand.words)
}

pub fn answer(ended: Ended, steps: u64, words: [Interval; Net::WORDS]) -> Answer {
    Answer {
        ended,
        steps,
        words,
    }
}

impl Stand {
    // One step further, or none where an interval is left with no word.
    fn after(&self, net: &Net) -> Option<Stand> {
        let at = self.next % Net::JOINS;
        let join = net.joins[at];
        let found = found(net.width, &self.words, join);
        let words = placed(&self.words, join, &found);
        if found.empty || words.iter().any(|word| reversed(*word)) {
            return None;
        }
        let row = if words == self.words {
            self.row.wrapping_add(1)
        } else {
            0
        };
        let next = if at + 1 == net.joined { 0 } else { at + 1 };
        Some(Stand { words, next, row })
    }
}

// The join of the words at its places, by search. A place that is no place reads as the first.
fn found(width: u64, words: &[Interval; Net::WORDS], join: Join) -> Joined {
    let asked = Asked {
        width,
        op: join.op,
        h: words[join.h % Net::WORDS],
        x: words[join.x % Net::WORDS],
        y: words[join.y % Net::WORDS],
    };
    asked.joined(words::span)
}

// Each place cut by each result for it. Those not in use hold one word.
fn placed(words: &[Interval; Net::WORDS], join: Join, found: &Joined) -> [Interval; Net::WORDS] {
    let mut new = *words;
    for (p, word) in new.iter_mut().enumerate() {
        *word = cut(p, *word, join, found);
    }
    new
}

fn cut(p: usize, word: Interval, join: Join, found: &Joined) -> Interval {
    let mut left = word;
    if p == join.h {
        left = common(left, found.h);
    }
    if p == join.x {
        left = common(left, found.x);
    }
    if p == join.y && !matches!(join.op, Op::Not) {
        left = common(left, found.y);
    }
    left
}
