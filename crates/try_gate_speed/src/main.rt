// Sets gates, so that the time can be taken: on each sheet as many as it takes, of the three kinds in turn, each narrower than the one
// before. With the argument `all` 200 sheets, 10,000 gates; with none two.
#![tactic(auto)]

use gate::Gate;
use rule::Rule;
use sheet::Sheet;
use std::env::Env;
use trial::trial_gates::direct::Kind;
use trial::trial_gates::made;
use trial_calls::sheets;

const SHEETS: u64 = 200;

const LITTLE: u64 = 2;

// The gates that a sheet takes.
const GATES: usize = Rule::LIMIT / Gate::RULES;

// The patterns of 1 and of 4096 watts, and how far a limit moves from one gate to the next.
const LOW: u32 = 0x3f80_0000;

const HIGH: u32 = 0x4580_0000;

const STEP: u32 = 0x0001_0000;

// How many gates were accepted, and what the smallest and the largest word after each come to, modulo 2^64.
#[derive(Clone, Copy)]
struct Sums {
    pub gates: u64,
    pub words: u64,
}

fn main(rt: HostRuntime) {
    let mut word = [0u8; 8];
    let _ = rt.arg(1, &mut word);
    let mut times = LITTLE;
    if word[0] == b'a' {
        times = SHEETS;
    }
    let sums = all(times);
    io::print_decimal(1, sums.gates);
    io::write_all(1, b" gates come to ");
    io::print_decimal(1, sums.words);
    io::write_all(1, b"\n");
}

fn all(times: u64) -> Sums {
    let sheet = sheets::opened(Gate::WIDTH);
    let mut sums = Sums { gates: 0, words: 0 };
    for _ in 0..times {
        sums = set(sums, sheet);
    }
    sums
}

// These, and the gates of a sheet more.
fn set(sums: Sums, opened: Sheet) -> Sums {
    let mut sheet = opened;
    let mut low = LOW;
    let mut high = HIGH;
    let mut gates = sums.gates;
    let mut words = sums.words;
    for i in 0..GATES {
        let answer = gating::set(sheet, made::gate(Kind::ALL[i % 3], low, high));
        sheet = answer.sheet;
        low = std::num::wrapping_add_u32(low, STEP);
        high = std::num::wrapping_sub_u32(high, STEP);
        let kept = sheet.kept;
        words = std::num::wrapping_add_u64(
            words,
            std::num::wrapping_add_u64(kept.smallest, kept.largest),
        );
        if answer.number == 0 {
            gates = std::num::wrapping_add_u64(gates, 1);
        }
    }
    Sums { gates, words }
}
