// Gates on a reading of watts, and the four rules that a gate is on the sheet of the reading's 32 bits.
#![tactic(auto)]

ghost use Rattle.std.specs.Prelude.{◌≡◌, ◌+◌, ◌≤◌, IfOk, true};
ghost use Rattle.std.specs.Float.{binary32};
ghost use Rattle.std.specs.Float.Ieee.{fits};
ghost use Rattle.word.specs.Word.{top};
ghost use Rattle.gate.specs.Gate.{failing, turned};
ghost use Rattle.gate.specs.Paper.{Single};
ghost use Rattle.gate.specs.route.Route.{IsLimit, between_rules, bits_of, from_of, limits_of, past_of, run_of};

use rule::Rule;
use word::Width;

/// A low and a high wattage.
#[derive(Clone, Copy, Debug, PartialEq)]
pub struct Span {
    pub low: f32,
    pub high: f32,
}

/// At least a limit, at most a limit, or within a span, ends included.
#[derive(Clone, Copy, Debug, PartialEq)]
pub enum Gate {
    AtLeast(f32),
    AtMost(f32),
    Within(Span),
}

/// The rules of a gate, in their order: two for each half of the words.
// No array, since each place has a meaning of its own, which is said of it by name.
#[derive(Clone, Copy)]
pub struct Four {
    pub first: Rule,
    pub second: Rule,
    pub third: Rule,
    pub fourth: Rule,
}

/// Why a gate has no rules: a limit is not a number.
#[derive(Clone, Copy, Debug, PartialEq, Eq)]
pub enum Refusal {
    NotANumber,
}

// The patterns of a half that meet a gate, counted inside the half: from `under` on, and before `over`. Where none does,
// both are the whole half.
// No `rule::band::Run`, whose last word is in it: a run here may be empty, and starts and ends where the rules of its half do.
#[derive(Clone, Copy)]
struct Run {
    under: u64,
    over: u64,
}

// A reading has the bits of a single-precision float.
const READING: Width = Width { bits: Gate::WIDTH };

// The patterns of the infinities.
const ABOVE_ALL: u64 = 0x7f80_0000;

const BELOW_ALL: u64 = 0xff80_0000;

impl Gate {
    /// The width of a sheet that takes a gate.
    pub const WIDTH: u64 = 32;

    /// How many rules a gate adds.
    pub const RULES: usize = 4;

    /// The gate as rules on a sheet of that width.
    pub fn rules(self) -> Result<Four, Refusal>
        ensures { result ≡ turned self }
    {
        let (low, high) = self.limits()?;
        Ok(between(low, high))
    }

    // The bits of its two limits: at least a limit is within it and the infinity above all, and at most a limit within the one below
    // all and it.
    fn limits(self) -> Result<(u64, u64), Refusal>
        ensures bits { result ≡ limits_of self }
        ensures single { IfOk result (λ bits. Single self) }
    {
        match self {
            Gate::AtLeast(low) => Ok((bits_of(low)?, ABOVE_ALL)),
            Gate::AtMost(high) => Ok((BELOW_ALL, bits_of(high)?)),
            Gate::Within(span) => Ok((bits_of(span.low)?, bits_of(span.high)?)),
        }
    }
}

// The bits of a limit that is a number.
#[tactic(auto, unfolding(crate::specs::route::Route::bits_of))]
fn bits_of(limit: f32) -> Result<u64, Refusal>
    ensures bits { result ≡ bits_of limit }
    ensures single { fits binary32 limit ≡ true }
{
    if limit.is_nan() {
        return Err(Refusal::NotANumber);
    }
    Ok(u64::from(limit.to_bits()))
}

// The rules for the readings from one pattern's value to another's. A word of the upper half has its sign bit set, so there
// the order is turned: the high limit's bits, with the other sign, come first.
fn between(low: u64, high: u64) -> Four
    requires limit { IsLimit low }
    requires limit_2 { IsLimit high }
    ensures { result ≡ between_rules low high }
{
    let half = READING.half();
    let lower = fitting(low, high);
    let upper = fitting(READING.add(high, half), READING.add(low, half));
    Four {
        first: failing(0, lower.under),
        second: failing(lower.over, half),
        third: failing(half, half + upper.under),
        fourth: failing(half + upper.over, half + half),
    }
}

// The patterns of the lower half whose values lie from one pattern's to another's.
#[tactic(auto, using(crate::proofs::SearchHalf::wanted), unfolding(crate::specs::route::Route::run_of))]
fn fitting(low: u64, high: u64) -> Run
    requires limit { IsLimit low }
    requires limit_2 { IsLimit high }
    ensures { result ≡ run_of low high }
{
    let half = READING.half();
    let under = from(low);
    let over = past(high);
    if under < over {
        return Run { under, over };
    }
    Run {
        under: half,
        over: half,
    }
}

// The first pattern of the lower half whose value is not below the limit's: all are above one with the sign bit.
#[tactic(auto, using(crate::proofs::SearchHalf::wanted), unfolding(crate::specs::route::Route::from_of))]
fn from(low: u64) -> u64
    ensures { result ≡ from_of low }
{
    let half = READING.half();
    if low < half {
        return low;
    }
    0
}

// Where the patterns of the lower half whose values are not above the limit's end: only zero is not above the other zero.
#[tactic(auto, using(crate::proofs::SearchHalf::wanted), unfolding(crate::specs::route::Route::past_of))]
fn past(high: u64) -> u64
    requires { IsLimit high }
    ensures { result ≡ past_of high }
{
    let half = READING.half();
    if high < half {
        return high + 1;
    }
    if high == half {
        return 1;
    }
    0
}

// The rule of form 3, sense 0 that fails just the words from `from` on and before `past`.
#[tactic(auto, using(crate::proofs::SearchHalf::wanted), unfolding(crate::specs::Gate::failing))]
fn failing(from: u64, past: u64) -> Rule
    requires { past ≤ from + top 32 }
    ensures { result ≡ failing from past }
{
    let top = READING.top();
    if from < past {
        return Rule {
            form: 3,
            sense: 0,
            c1: READING.sub(0, past),
            c2: top - (past - from),
        };
    }
    Rule {
        form: 3,
        sense: 0,
        c1: 0,
        c2: top,
    }
}
