// Tries the desk's calls on words of 64 bits, and on words of up to 32 in both editions, against a walk that is written apart and goes by
// the words where a rule may turn.
//
// The counts. alone: forms 1, 2, 3 and 8 have 36 pairs of corners and two senses, forms 4, 5 and 6 six corners and two senses, and
// form 7 the pairs whose second lies in the first, 1 + 2 + 3 + 2 + 3 + 6: 288 + 36 + 17 = 341. paired: each of these before each of 31, as
// every eleventh of the 576 numbers stands second. tiled: from six corners, with two bits set or clear, five tiles of three lengths: 24 * 3^5 =
// 5832. drawn has as many as its loop makes, 4000. Each is asked in every edition that has the width, and in both the two answers are
// compared with each other too. known has the right answer to a sheet, and seven wrong ones.
#![tactic(auto)]

mod sheets;

use trial_sheets::trial_editions::known;

fn main(rt: HostRuntime) {
    sheets::alone(64).print(&rt, "64 alone");
    sheets::paired(64).print(&rt, "64 paired");
    sheets::tiled(64).print(&rt, "64 tiled");
    sheets::alone(32).print(&rt, "32 alone");
    sheets::paired(32).print(&rt, "32 paired");
    sheets::tiled(32).print(&rt, "32 tiled");
    sheets::alone(31).print(&rt, "31 alone");
    sheets::paired(31).print(&rt, "31 paired");
    sheets::drawn(33).print(&rt, "33 to 64 drawn");
    sheets::drawn(1).print(&rt, "1 to 32 drawn");
    let _ = println!(rt; "known {}", known::all());
}
