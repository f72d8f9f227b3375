// A net of words, in numbers: lent lists of intervals and of joins, of any length.

ghost use Rattle.std.specs.Prelude.{◌≡◌};
ghost use Rattle.net.specs.Net.{number};
ghost use Rattle.outside.specs.on_nets.Nets.{Ran, told};

use crate::net_joins::joins_in;
use crate::net_words::{put, words_in};
use net::{Ended, Net};

// What each way to end is told as; a refusal has its number, and 0 here.
const EMPTY: u64 = 0;

const STEADY: u64 = 1;

const SPENT: u64 = 2;

/// Cuts the intervals of a net, a row each, for as many steps as are paid for. A refusal leaves them as they came.
pub fn run(
    width: u64,
    words: &mut [[u64; 2]],
    joins: &[[u64; 4]],
    pay: u64,
    answer: &mut [u64; 2],
) -> u64
    ensures { Ran width words.old joins.now pay words.new answer.new result }
{
    let net = Net {
        width,
        words: words_in(words),
        count: words.len(),
        joins: joins_in(joins),
        joined: joins.len(),
    };
    let said = net.run(pay);
    *answer = [told(said.ended), said.steps];
    let number = refusal_of(said.ended);
    if number != 0 {
        return number;
    }
    put(words, said.words);
    0
}

fn refusal_of(ended: Ended) -> u64
    ensures { result ≡ number ended }
{
    match ended {
        Ended::Refused(number) => number,
        Ended::Empty => 0,
        Ended::Steady => 0,
        Ended::Spent => 0,
    }
}

#[tactic(auto, unfolding(crate::specs::on_nets::Nets::told))]
fn told(ended: Ended) -> u64
    ensures { result ≡ told ended }
{
    match ended {
        Ended::Refused(_) => 0,
        Ended::Empty => EMPTY,
        Ended::Steady => STEADY,
        Ended::Spent => SPENT,
    }
}
