// Tries drawn gates against a plain reading of IEEE 754 by integers, and sequences of calls with gates among them, in both editions,
// against a clerk's page on which a gate stands as its four rules.
//
// The counts (tests/models/try_gate_pages.py). drawn: 1000 gates, whether a limit is not a number. fit and unfit: those with numbers on
// 24 words each, 12 about the limits and 12 drawn, that meet the gate or do not. asked: each on a sheet with one of these words asked
// for. Then the calls of 20 sequences of 100, and 92 each on 4 sheets that are filled: gates that are accepted, and refused by 1, 13, 14
// and 6; and the others. known: one each against a page that misses a gate, that misses its last rule and that keeps what waits, a wrong
// number, and the wrong kind of a gate.
#![tactic(auto)]

mod counts;
mod draw;
mod pages;
mod reading;

fn main(rt: HostRuntime) {
    let _ = println!(rt;
        "drawn {}",
        reading::over(|_, limits| reading::turned(limits))
    );
    let _ = println!(rt;
        "fit {}",
        reading::over(|seed, limits| reading::on_words(limits, seed, true))
    );
    let _ = println!(rt;
        "unfit {}",
        reading::over(|seed, limits| reading::on_words(limits, seed, false))
    );
    let _ = println!(rt;
        "asked {}",
        reading::over(|seed, limits| reading::asked(limits, seed))
    );
    pages::all().tell(&rt);
    let _ = println!(rt; "known {}", pages::known().plus(reading::known()));
}
