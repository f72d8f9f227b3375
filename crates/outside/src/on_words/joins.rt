// A join of three words.
ghost use Rattle.std.specs.Prelude.{◌≡◌};
ghost use Rattle.outside.specs.handing.Handed.{number_of};
ghost use Rattle.outside.specs.net_words.Laid.{row_of};
ghost use Rattle.outside.specs.on_words.Joins.{interval_in, join_in, join_rows, op_of};

use span::{Interval, Op};

/// Cuts the intervals of h, x and y, a row each. A refusal, and an empty cut, leave them as they came.
pub fn join(width: u64, op: u64, words: &mut [[u64; 2]; 3], empty: &mut u64) -> u64
    ensures value { result ≡ (join_in width op words.old).number }
    ensures words_after { words.new ≡ join_rows (join_in width op words.old) }
    ensures empty_after { empty.new ≡ number_of (join_in width op words.old).empty }
{
    let said = span::join(
        width,
        op_of(op),
        interval_in(&words[0]),
        interval_in(&words[1]),
        interval_in(&words[2]),
    );
    *words = [row_of(&said.h), row_of(&said.x), row_of(&said.y)];
    *empty = said.empty as u64;
    said.number
}

/// The interval of a row: its low end, and its high one.
pub fn interval_in(row: &[u64; 2]) -> Interval
    ensures { result ≡ interval_in row.now }
{
    Interval {
        low: row[0],
        high: row[1],
    }
}

/// The row of an interval.
pub fn row_of(word: &Interval) -> [u64; 2]
    ensures { result ≡ row_of word.now }
{
    [word.low, word.high]
}

/// What a number joins words by.
pub fn op_of(number: u64) -> Op
    ensures { result ≡ op_of number }
{
    match number {
        0 => Op::Not,
        1 => Op::And,
        2 => Op::Or,
        _ => Op::Xor,
    }
}
