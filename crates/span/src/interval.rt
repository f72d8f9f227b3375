// Intervals of words and the operations that join them: what lies in two, what lies below and above a half, and words turned round.

ghost use Rattle.std.specs.Prelude.{◌≤◌, ◌<◌, ◌≡◌};
ghost use Rattle.span.specs.interval.Interval.{cut, hollow, lower, turned, upper, within};
ghost use Rattle.span.specs.interval.Op.{inverted, second};

/// What joins the words.
#[derive(Clone, Copy, Debug, PartialEq, Eq)]
pub enum Op {
    Not,
    And,
    Or,
    Xor,
}

/// The words from low to high.
#[derive(Clone, Copy, Debug, PartialEq, Eq)]
pub struct Interval {
    pub low: u64,
    pub high: u64,
}

impl Op {
    /// The second argument: a NOT has none, and one word stands in its place.
    #[tactic(auto, unfolding(crate::specs::interval::Op::second))]
    pub fn second(self, y: Interval) -> Interval
        ensures { result ≡ second self y }
    {
        match self {
            Op::Not => Interval { low: 0, high: 0 },
            Op::And | Op::Or | Op::Xor => y,
        }
    }

    /// How many arguments the inverse operation cuts, x first.
    #[tactic(auto, unfolding(crate::specs::interval::Op::inverted))]
    pub fn inverted(self) -> u64
        ensures { result ≡ inverted self }
    {
        match self {
            Op::Not => 1,
            Op::And | Op::Or => 0,
            Op::Xor => 2,
        }
    }
}

impl Interval {
    /// The words that lie in both.
    #[tactic(auto, unfolding(crate::specs::interval::Interval::cut))]
    pub fn cut(self, other: Interval) -> Interval
        ensures { result ≡ cut self other }
    {
        Interval {
            low: self.low.max(other.low),
            high: self.high.min(other.high),
        }
    }

    /// Whether its low end is above its high end.
    #[tactic(auto, unfolding(crate::specs::interval::Interval::hollow))]
    pub fn hollow(self) -> bool
        ensures { result ≡ hollow self }
    {
        self.high < self.low
    }

    /// Whether neither end is above the top word.
    #[tactic(auto, using(crate::proofs::interval::SearchIntervalWithin::wanted), unfolding(crate::specs::interval::Interval::within))]
    pub fn within(self, top: u64) -> bool
        ensures { result ≡ within top self }
    {
        self.low <= top && self.high <= top
    }

    /// Its words turned round, a to top - a.
    #[tactic(auto, unfolding(crate::specs::interval::Interval::turned))]
    pub fn turned(self, top: u64) -> Interval
        requires { (self.low ≤ top) × (self.high ≤ top) }
        ensures { result ≡ turned top self }
    {
        Interval {
            low: top - self.high,
            high: top - self.low,
        }
    }

    /// Its words below half.
    #[tactic(auto, unfolding(crate::specs::interval::Interval::lower))]
    pub fn lower(self, half: u64) -> Interval
        requires { 0 < half }
        ensures { result ≡ lower half self }
    {
        Interval {
            low: self.low,
            high: self.high.min(half - 1),
        }
    }

    /// Its words from half on, less half.
    #[tactic(auto, unfolding(crate::specs::interval::Interval::upper))]
    pub fn upper(self, half: u64) -> Interval
        requires { half ≤ self.high }
        ensures { result ≡ upper half self }
    {
        Interval {
            low: self.low.saturating_sub(half),
            high: self.high - half,
        }
    }
}
