// Every assignment of words to the places of a net, one after the other.
use crate::trial_spans::expected;
use net::{Join, Net};
use span::{Interval, Op};

/// Whether every assignment inside the given intervals that satisfies all joins lies inside those that were left. There are so many
/// assignments, of n words a place.
pub fn all_kept(net: &Net, left: &[Interval; Net::WORDS], n: u64, count: u64) -> bool {
    (0..count).all(|i| {
        let words = numbered(i, n);
        !solves(net, &words) || inside(left, net.count, &words)
    })
}

/// Whether there is no such assignment at all.
pub fn none(net: &Net, n: u64, count: u64) -> bool {
    !(0..count).any(|i| solves(net, &numbered(i, n)))
}

fn solves(net: &Net, words: &[u64; Net::WORDS]) -> bool {
    inside(&net.words, net.count, words) && satisfied(net, words)
}

// The digits of i to the base n.
fn numbered(i: u64, n: u64) -> [u64; Net::WORDS] {
    let mut words = [0; Net::WORDS];
    if n == 0 {
        return words;
    }
    let mut rest = i;
    for word in words.iter_mut() {
        *word = rest % n;
        rest /= n;
    }
    words
}

// The first n places.
fn inside(intervals: &[Interval; Net::WORDS], n: usize, words: &[u64; Net::WORDS]) -> bool {
    intervals
        .iter()
        .zip(words)
        .take(n)
        .all(|(i, word)| i.low <= *word && *word <= i.high)
}

fn satisfied(net: &Net, words: &[u64; Net::WORDS]) -> bool {
    let top = expected::top(net.width);
    net.joins
        .iter()
        .take(net.joined)
        .all(|join| holds(*join, top, words))
}

fn holds(join: Join, top: u64, words: &[u64; Net::WORDS]) -> bool {
    let h = words[join.h % Net::WORDS];
    let x = words[join.x % Net::WORDS];
    let y = words[join.y % Net::WORDS];
    match join.op {
        Op::Not => h == top.wrapping_sub(x),
        Op::And => h == x & y,
        Op::Or => h == x | y,
        Op::Xor => h == x ^ y,
    }
}
