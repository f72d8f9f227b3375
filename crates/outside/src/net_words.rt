// The intervals that rows are, in the places of a net, and those that it leaves, written down.

ghost use Rattle.std.specs.Prelude.{◌≡◌, map, replicate};
ghost use Rattle.net.specs.net_step.Named.{WORDS};
ghost use Rattle.outside.specs.on_words.Joins.{interval_in};
ghost use Rattle.outside.specs.net_words.Laid.{laid_over, no_word, row_of};

use crate::on_words::{interval_in, row_of};
use crate::over::lay_over;
use net::net_step::WORDS;
use span::Interval;

/// The intervals of as many rows as a net has words. Places not in use have the word 0.
pub fn words_in(rows: &[[u64; 2]]) -> [Interval; WORDS]
    ensures { result ≡ laid_over (map interval_in rows.now) (replicate WORDS no_word) }
{
    let mut words = [Interval { low: 0, high: 0 }; WORDS];
    lay_over(rows, &mut words, interval_in);
    words
}

/// Writes the intervals down, a row each, as many as there are rows.
pub fn put(rows: &mut [[u64; 2]], words: [Interval; WORDS])
    ensures { rows.new ≡ laid_over (map row_of words) rows.old }
{
    lay_over(&words, rows, row_of);
}
