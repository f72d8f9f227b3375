// Tries the reading of watts against what is known otherwise: the machine's own division and conversion, which round once where digits and
// power are single-precision numbers or there is no point; halves between two patterns, and what is a little less or more; and decimals
// worked by hand. Beside each count stands the sum of the bits read.
//
// The counts and sums (tests/models/try_watts.py, by fractions). Each of the first six has 2000 drawn. drawn: digits up to 64 bits with up to
// ten digits after the point, of which ten are too many. known has two wrong expectations: that a half goes up, and that a sign is dropped.
#![tactic(auto)]

mod counts;
mod known;
mod made;

use counts::Seen;
use made::Kind;
use trial::trial_direct::draw;

// How many are drawn for each line.
const ROUNDS: u64 = 2000;

fn main(rt: HostRuntime) {
    drawn(Kind::Divided).print(&rt, "divided");
    drawn(Kind::Whole).print(&rt, "whole");
    drawn(Kind::Half).print(&rt, "half");
    drawn(Kind::Less).print(&rt, "less");
    drawn(Kind::More).print(&rt, "more");
    drawn(Kind::Large).print(&rt, "large");
    known::corners().print(&rt, "corners");
    drawn(Kind::Any).print_read(&rt, "drawn");
    known::wrong().print(&rt, "known");
}

// So many of a kind.
fn drawn(kind: Kind) -> Seen {
    (1..ROUNDS + 1)
        .map(|i| made::one(kind, draw::spread(0, i)))
        .sum()
}
