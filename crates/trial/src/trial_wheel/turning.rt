// Where a rule turns: the words where its truth may be another than at the word before. From one to the next a rule outside form 7 is
// looked at once for all words, so that a walk over its turns is a walk over all words.
use crate::trial_wheel::meaning;
use crate::trial_wheel::wheel::Wheel;
use rule::Rule;

/// Words in a row, both ends included.
#[derive(Clone, Copy, Debug)]
pub struct Stretch {
    pub from: u64,
    pub to: u64,
}

impl Stretch {
    /// The words that both have.
    pub fn common(self, other: Stretch) -> Stretch {
        Stretch {
            from: self.from.max(other.from),
            to: self.to.min(other.to),
        }
    }
}

/// How many words are listed for a rule. It turns at some of them, and at no other.
pub const TURNS: u64 = 16;

// Eight words. At each of them and at the word after it the rule may turn: forms 1 to 3 where a sum wraps, or passes what it is compared
// with; forms 4 to 6 at half and around c1; form 8 at c1, at the end of the settling time, and half a wheel after c1.
fn turns(wheel: Wheel, rule: Rule) -> [u64; 8] {
    let Rule { c1, c2, .. } = rule;
    [
        wheel.difference(0, c1),
        wheel.difference(0, c2),
        wheel.difference(c1, c2),
        wheel.difference(c2, c1),
        wheel.half,
        c1,
        wheel.sum(c1, c2),
        wheel.sum(c1, wheel.half),
    ]
}

/// The words around x within which the rule does not turn.
pub fn around(wheel: Wheel, rule: Rule, x: u64) -> Stretch {
    let mut from = 0;
    let mut to = wheel.top;
    for word in turns(wheel, rule) {
        for turn in [word, wheel.sum(word, 1)] {
            if turn <= x {
                from = from.max(turn);
            } else {
                to = to.min(turn - 1);
            }
        }
    }
    Stretch { from, to }
}

/// "the largest q such that every word from p to q fails it", of a rule that p fails
pub fn reach(wheel: Wheel, rule: Rule, p: u64) -> u64 {
    let mut end = around(wheel, rule, p).to;
    for _ in 0..TURNS {
        if wheel.top <= end || meaning::meets(wheel, rule, end + 1) {
            break;
        }
        end = around(wheel, rule, end + 1).to;
    }
    end.min(wheel.top)
}

/// "where that rule's run of failing words starts", of a rule that p fails
pub fn start(wheel: Wheel, rule: Rule, p: u64) -> u64 {
    let mut start = around(wheel, rule, p).from;
    for _ in 0..TURNS {
        if start == 0 || meaning::meets(wheel, rule, start - 1) {
            break;
        }
        start = around(wheel, rule, start - 1).from;
    }
    start
}
