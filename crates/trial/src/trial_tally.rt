// How many answers were compared, and how many of them differ.

ghost use Rattle.std.specs.Prelude.{◌≡◌, List, fold};
ghost use Rattle.std.specs.Iterator.{Drains, IsFinite};
ghost use Rattle.trial.specs.trial_tally.Laws.{CountLaws};
ghost use Rattle.trial.specs.trial_tally.Tally.{none, one, plus, no_kind, one_of, plus_split, joined, tally_laws, split_laws};

use std::fmt;
use std::iter::Sum;

/// What is counted and added up: the order and the grouping of what is added do not matter.
pub trait Count: Copy {
    ghost empty: { Self };

    ghost both: { Self → Self → Self };

    ghost laws: { CountLaws empty both };

    /// Nothing counted.
    fn none() -> Self
        ensures { result ≡ empty };

    /// What both counted.
    fn plus(self, more: Self) -> Self
        ensures { result ≡ both self more };
}

/// All of them together.
pub fn total<C: Count, I: Iterator<Item = C> + Drop>(all: I) -> C
    requires can { I.can_next all }
    requires ends { IsFinite (I.remaining all) }
    ensures { (counts : List C) × Drains I.next_gives all counts × (result ≡ fold C.both C.empty counts) }
{
    let mut sum = C::none();
    for count in all {
        sum = sum.plus(count);
    }
    sum
}

/// How many were compared, and how many differ.
#[derive(Clone, Copy, Debug, PartialEq, Eq)]
pub struct Tally {
    pub compared: u64,
    pub differ: u64,
}

impl Tally {
    /// One comparison.
    pub fn one(same: bool) -> Tally
        ensures { result ≡ one same }
    {
        Tally {
            compared: 1,
            differ: u64::from(!same),
        }
    }

    pub fn none() -> Tally
        ensures { result ≡ none }
    {
        <Tally as Count>::none()
    }

    pub fn plus(self, more: Tally) -> Tally
        ensures { result ≡ plus self more }
    {
        <Tally as Count>::plus(self, more)
    }

    /// A line of the program's output.
    pub fn print(self, name: &[u8]) {
        crate::trial_lines::compared(name, self.compared, self.differ);
    }
}

impl Count for Tally {
    ghost empty = { none };

    ghost both = { plus };

    ghost laws = { tally_laws };

    fn none() -> Tally {
        Tally {
            compared: 0,
            differ: 0,
        }
    }

    fn plus(self, more: Tally) -> Tally {
        Tally {
            compared: self.compared.wrapping_add(more.compared),
            differ: self.differ.wrapping_add(more.differ),
        }
    }
}

impl Sum<Tally> for Tally {
    ghost sum_gives = { λ xs s. s ≡ fold plus none xs };

    fn sum<I: Iterator<Item = Tally> + Drop>(all: I) -> Tally {
        total(all)
    }
}

impl fmt::Display for Tally {
    fn fmt<W: fmt::Write>(&self, f: &mut fmt::Formatter<W>) -> fmt::Result {
        write!(f, "{} compared, {} differ", self.compared, self.differ)
    }
}

/// How many answers of each of three kinds were compared, and how many of them differ.
#[derive(Clone, Copy, Debug, PartialEq, Eq)]
pub struct Split {
    pub first: u64,
    pub second: u64,
    pub third: u64,
    pub differ: u64,
}

impl Split {
    /// One comparison, of the kind 0, 1 or 2.
    pub fn one(kind: u64, same: bool) -> Split
        ensures { result ≡ one_of kind same }
    {
        let differ = u64::from(!same);
        Split {
            first: u64::from(kind == 0),
            second: u64::from(kind == 1),
            third: u64::from(kind == 2),
            differ,
        }
    }

    pub fn none() -> Split
        ensures { result ≡ no_kind }
    {
        <Split as Count>::none()
    }

    pub fn plus(self, more: Split) -> Split
        ensures { result ≡ plus_split self more }
    {
        <Split as Count>::plus(self, more)
    }

    /// The comparisons of all kinds.
    pub fn joined(self) -> Tally
        ensures { result ≡ joined self }
    {
        let later = self.second.wrapping_add(self.third);
        Tally {
            compared: self.first.wrapping_add(later),
            differ: self.differ,
        }
    }

    /// Two lines of the program's output, of calls by whether they were refused.
    pub fn print_calls(self, name: &[u8]) {
        self.joined().print(name);
        crate::trial_lines::calls(name, self.first, self.second);
    }
}

impl Count for Split {
    ghost empty = { no_kind };

    ghost both = { plus_split };

    ghost laws = { split_laws };

    fn none() -> Split {
        Split {
            first: 0,
            second: 0,
            third: 0,
            differ: 0,
        }
    }

    fn plus(self, more: Split) -> Split {
        Split {
            first: self.first.wrapping_add(more.first),
            second: self.second.wrapping_add(more.second),
            third: self.third.wrapping_add(more.third),
            differ: self.differ.wrapping_add(more.differ),
        }
    }
}

impl Sum<Split> for Split {
    ghost sum_gives = { λ xs s. s ≡ fold plus_split no_kind xs };

    fn sum<I: Iterator<Item = Split> + Drop>(all: I) -> Split {
        total(all)
    }
}

/// Sheets by their verdicts: a split is shown as none, one and many.
#[derive(Clone, Copy, Debug)]
pub struct Verdicts(pub Split);

impl fmt::Display for Verdicts {
    fn fmt<W: fmt::Write>(&self, f: &mut fmt::Formatter<W>) -> fmt::Result {
        let Split {
            first,
            second,
            third,
            differ,
        } = self.0;
        let all = self.0.joined().compared;
        write!(
            f,
            "{all} compared: {first} none, {second} one, {third} many, {differ} differ"
        )
    }
}
