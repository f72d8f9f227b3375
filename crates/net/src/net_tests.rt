// The tests over all words and joins of a net, from which it is refused.

ghost use Rattle.std.specs.Prelude.{◌≡◌, not};
ghost use Rattle.std.specs.List.{list_all};
ghost use Rattle.span.specs.interval.Interval.{hollow, within};
ghost use Rattle.net.specs.net_step.Named.{named};
ghost use Rattle.net.specs.net_tests.Fits.{fits};

use crate::net_step::{Join, WORDS};
use span::Interval;

/// The most joins of a net.
pub const JOINS: usize = 32;

/// Whether there are places for all words and joins, and words for all joins.
#[tactic(auto, using(crate::proofs::net_tests::SearchFits::wanted), unfolding(crate::specs::net_tests::Fits::fits))]
pub fn fits(count: usize, joins: &[Join; JOINS], joined: usize) -> bool
    ensures { result ≡ fits count joins.now joined }
{
    count <= WORDS && joined <= JOINS && all_named(&joins[..joined], count)
}

// Whether each of the joins names words below n alone.
fn all_named(joins: &[Join], n: usize) -> bool
    ensures { result ≡ list_all (named n) joins.now }
{
    joins.iter().all(|join| join.is_named(n))
}

/// Whether no bound of the intervals is above the top word.
pub fn all_within(words: &[Interval], top: u64) -> bool
    ensures { result ≡ list_all (within top) words.now }
{
    words.iter().all(|word| word.within(top))
}

/// Whether none of the intervals has its low end above its high end.
pub fn none_hollow(words: &[Interval]) -> bool
    ensures { result ≡ list_all (λ word. not (hollow word)) words.now }
{
    words.iter().all(|word| !word.hollow())
}
