// Gates and calls drawn from a fixed seed, so that every run makes the same ones.
use gate::Gate;
use page::Opening;
use rule::Rule;
use sheet::Call;
use trial::trial_direct::draw::next;
use trial::trial_gates::direct::Kind;
use trial::trial_gates::{direct, made};
use trial_calls::trial_draws::draw;

const SIGN: u32 = 0x8000_0000;

const INFINITY: u32 = 0x7f80_0000;

/// The kind of a gate, and the patterns of its limits: at least a limit has only a low one, at most a limit only a high one.
#[derive(Clone, Copy)]
pub struct Limits {
    pub kind: Kind,
    pub low: u32,
    pub high: u32,
}

impl Limits {
    pub fn gate(self) -> Gate {
        made::gate(self.kind, self.low, self.high)
    }

    /// The four rules that the gate is turned into, if it is.
    pub fn rules(self) -> Option<[Rule; 4]> {
        match self.gate().rules() {
            Ok(four) => Some([four.first, four.second, four.third, four.fourth]),
            Err(_) => None,
        }
    }

    pub fn are_numbers(self) -> bool {
        direct::limits(self.kind, self.low, self.high)
    }

    /// Whether the reading x meets the gate.
    pub fn met(self, x: u64) -> bool {
        direct::meets(self.kind, self.low, self.high, x)
    }
}

/// What is called next.
#[derive(Clone, Copy)]
pub enum Next {
    Set(Limits),
    Other(Call),
}

/// A gate or another call for a sheet that was opened so, on which something waits or nothing does. A sheet that takes no gate is soon
/// opened anew; once something waits gates are rare, as each clears the pile.
pub fn drawn(seed: u64, opening: Opening, waits: bool) -> Next {
    let more = next(seed);
    if opens(seed / 0x1_0000_0000, opening.width) {
        return Next::Other(Call::Open(anew(more)));
    }
    if sets(seed / 0x100_0000_0000, waits) {
        return Next::Set(some_limits(more));
    }
    Next::Other(draw::drawn(seed, opening, waits))
}

fn opens(seed: u64, width: u64) -> bool {
    let kind = seed % 128;
    kind == 0 || width != Gate::WIDTH && kind < 16
}

fn sets(seed: u64, waits: bool) -> bool {
    let kind = seed % 16;
    kind == 0 || !waits && kind < 6
}

// An opening in either edition, mostly of the width of gates, else of a neighbouring one.
fn anew(seed: u64) -> Opening {
    let width = if seed % 8 == 0 {
        30 + seed / 8 % 4
    } else {
        Gate::WIDTH
    };
    Opening {
        width,
        edition: draw::either(seed),
    }
}

/// A gate, whose low limit is mostly negative and whose high one is mostly not.
pub fn some_limits(seed: u64) -> Limits {
    let more = next(seed);
    let low = pattern(seed / 8);
    let high = pattern(more / 8);
    Limits {
        kind: Kind::ALL[(seed / 0x1_0000_0000_0000 % 3) as usize],
        low: if seed % 8 == 0 { low } else { low | SIGN },
        high: if more % 8 == 0 { high } else { high % SIGN },
    }
}

// Mostly any 32 bits; else, with drawn bits where they are free, what is mostly not a number, an infinity, a zero, or a subnormal number.
fn pattern(seed: u64) -> u32 {
    let any = (seed / 16 % 0x1_0000_0000) as u32;
    match seed % 16 {
        0 => any | INFINITY,
        1 => any & SIGN | INFINITY,
        2 => any & SIGN,
        3 => any & (SIGN | 0x007f_ffff),
        _ => any,
    }
}
