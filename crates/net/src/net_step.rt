// One step of a net: the intervals of the words that a join names, cut by its results.

ghost use Rattle.std.specs.Prelude.{◌≡◌, ◌<◌};
ghost use Rattle.net.specs.net_step.Named.{Named, WORDS, named, third};
ghost use Rattle.net.specs.net_step.Step.{cut_at, stepped};

use span::{Interval, Op};

/// The most words of a net.
pub const WORDS: usize = 16;

/// A join: what joins, and the places of its words. A NOT's y isn't read.
#[derive(Clone, Copy, Debug, PartialEq, Eq)]
pub struct Join {
    pub op: Op,
    pub h: usize,
    pub x: usize,
    pub y: usize,
}

/// What a step comes to: whether a cut is empty, whether no word changed, and the words that it leaves.
#[derive(Clone, Copy)]
pub struct Stepped {
    pub empty: bool,
    pub quiet: bool,
    pub words: [Interval; WORDS],
}

impl Join {
    /// The place of y. A NOT has none, and its x stands there.
    #[tactic(auto, unfolding(crate::specs::net_step::Named::place_of, crate::specs::net_step::Named::third))]
    pub fn third(self) -> usize
        ensures { result ≡ third self }
    {
        match self.op {
            Op::Not => self.x,
            Op::And | Op::Or | Op::Xor => self.y,
        }
    }

    /// Whether it names words below n alone.
    #[tactic(auto, unfolding(crate::specs::net_step::Named::named))]
    pub fn is_named(self, n: usize) -> bool
        ensures { result ≡ named n self }
    {
        self.h < n && self.x < n && self.third() < n
    }
}

/// The cuts by a join. All of them read the intervals as given, and a word that is named twice is cut by all its results. Where one is
/// empty, the words stay.
pub fn step(width: u64, join: Join, words: [Interval; WORDS]) -> Stepped
    requires { Named WORDS join }
    ensures { result ≡ stepped width join words }
{
    let y = join.third();
    let old_h = words[join.h];
    let old_x = words[join.x];
    let old_y = words[y];
    let cuts = span::join(width, join.op, old_h, old_x, old_y);
    let mut next = words;
    cut_at(&mut next, join.h, cuts.h);
    cut_at(&mut next, join.x, cuts.x);
    cut_at(&mut next, y, cuts.y);
    let new_h = next[join.h];
    let new_x = next[join.x];
    let new_y = next[y];
    let empty = cuts.empty | span::any_hollow(new_h, new_x, new_y);
    if empty {
        return Stepped {
            empty: true,
            quiet: true,
            words,
        };
    }
    Stepped {
        empty: false,
        quiet: (old_h == new_h) & (old_x == new_x) & (old_y == new_y),
        words: next,
    }
}

// Cuts the word at a place.
#[tactic(auto, unfolding(crate::specs::net_step::Step::cut_at))]
fn cut_at(words: &mut [Interval; WORDS], place: usize, by: Interval)
    requires { place < WORDS }
    ensures { words.new ≡ cut_at place by words.old }
{
    words[place] = words[place].cut(by);
}
