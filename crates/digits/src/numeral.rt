// Numbers as people write them, taken letter by letter: in decimal, after `0x` and `0b`, below zero, and with a point.

mod writing;

ghost use Rattle.std.specs.Prelude.{◌≡◌, ◌<◌};
ghost use Rattle.digits.specs.numeral.Numeral.{PLACES, after_zero, below_zero, digit, has_digits, in_base, is_stopped, next, past_digit, past_place, pointed, start, stopped, value_of};

pub use writing::put_digits;

/// How far a number has come.
#[derive(Clone, Copy, PartialEq, Eq)]
pub enum Stage {
    /// Nothing is read.
    Start,
    /// A lone 0 is read, which the letter of a base may follow.
    Zero,
    /// Digits are read.
    Digits,
    /// A digit has to follow.
    Needs,
    /// It is no number.
    Bad,
    /// It is a number past 64 bits.
    Large,
}

impl Stage {
    // Whether digits are read, and no letter of a base.
    #[tactic(auto, using(crate::proofs::numeral::Stages::no_digits))]
    fn has_digits(self) -> bool
        ensures { result ≡ has_digits self }
    {
        match self {
            Stage::Zero | Stage::Digits => true,
            _ => false,
        }
    }

    // Whether nothing more is read.
    #[tactic(auto, using(crate::proofs::numeral::Stages::not_stopped))]
    fn is_stopped(self) -> bool
        ensures { result ≡ is_stopped self }
    {
        match self {
            Stage::Bad | Stage::Large => true,
            _ => false,
        }
    }
}

// What is read so far: how far it has come, whether it is below zero, its base, whether its point was read, its digits as one
// whole number, and how many of them stand after the point.
#[derive(Clone, Copy)]
pub struct Numeral {
    pub stage: Stage,
    pub minus: bool,
    pub base: u64,
    pub point: bool,
    pub value: u64,
    pub places: u64,
}

impl Numeral {
    // The most digits after the point.
    pub const PLACES: u64 = 9;

    // Nothing is read.
    pub fn start() -> Numeral
        ensures { result ≡ start }
    {
        Numeral {
            stage: Stage::Start,
            minus: false,
            base: 10,
            point: false,
            value: 0,
            places: 0,
        }
    }

    // One letter more.
    #[tactic(auto, using(crate::proofs::numeral::Stages::wanted), unfolding(crate::specs::numeral::Numeral::next))]
    pub fn next(self, b: u8) -> Numeral
        ensures { result ≡ next self b }
    {
        if b == b'-' {
            return self.below_zero();
        }
        if b == b'.' {
            return self.pointed();
        }
        if self.stage == Stage::Zero {
            return self.after_zero(b);
        }
        self.digit(value_of(b))
    }

    // A minus stands first, or nowhere.
    #[tactic(auto, using(crate::proofs::numeral::Stages::wanted), unfolding(crate::specs::numeral::Numeral::below_zero))]
    fn below_zero(self) -> Numeral
        ensures { result ≡ below_zero self }
    {
        if self.stage == Stage::Start {
            return Numeral {
                stage: Stage::Needs,
                minus: true,
                base: 10,
                point: false,
                value: 0,
                places: 0,
            };
        }
        stopped(Stage::Bad)
    }

    // A point stands once, between digits of a decimal number.
    #[tactic(auto, using(crate::proofs::numeral::Stages::wanted), unfolding(crate::specs::numeral::Numeral::pointed))]
    fn pointed(self) -> Numeral
        ensures { result ≡ pointed self }
    {
        if self.base != 10 {
            return stopped(Stage::Bad);
        }
        if self.point {
            return stopped(Stage::Bad);
        }
        if !self.stage.has_digits() {
            return stopped(Stage::Bad);
        }
        Numeral {
            stage: Stage::Needs,
            minus: self.minus,
            base: 10,
            point: true,
            value: self.value,
            places: 0,
        }
    }

    // After a lone 0 stands the letter of a base, or a digit.
    #[tactic(auto, using(crate::proofs::numeral::Stages::wanted), unfolding(crate::specs::numeral::Numeral::after_zero))]
    fn after_zero(self, b: u8) -> Numeral
        ensures { result ≡ after_zero self b }
    {
        if b == b'x' {
            return self.in_base(16);
        }
        if b == b'b' {
            return self.in_base(2);
        }
        self.digit(value_of(b))
    }

    // The digits of a base are to come.
    fn in_base(self, base: u64) -> Numeral
        ensures { result ≡ in_base base self.minus }
    {
        Numeral {
            stage: Stage::Needs,
            minus: self.minus,
            base,
            point: false,
            value: 0,
            places: 0,
        }
    }

    // A digit more, where the base has it and the number stays within 64 bits.
    #[tactic(auto, using(crate::proofs::numeral::SearchNumeralDigit::wanted), unfolding(crate::specs::numeral::Numeral::digit))]
    fn digit(self, d: u64) -> Numeral
        ensures { result ≡ digit self d }
    {
        let base = self.base;
        let value = self.value;
        if self.stage.is_stopped() {
            return stopped(self.stage);
        }
        if base <= d {
            return stopped(Stage::Bad);
        }
        if Numeral::PLACES <= self.places {
            return stopped(Stage::Bad);
        }
        if (u64::MAX - d) / base < value {
            return stopped(Stage::Large);
        }
        Numeral {
            stage: past_digit(self.stage, d),
            minus: self.minus,
            base,
            point: self.point,
            value: base * value + d,
            places: past_place(self.places, self.point),
        }
    }
}

// No number, or one that is too large.
fn stopped(stage: Stage) -> Numeral
    ensures { result ≡ stopped stage }
{
    Numeral {
        stage,
        minus: false,
        base: 10,
        point: false,
        value: 0,
        places: 0,
    }
}

// The stage after a digit: a first 0 stands alone as yet.
#[tactic(auto, using(crate::proofs::numeral::Stages::wanted), unfolding(crate::specs::numeral::Numeral::past_digit))]
fn past_digit(stage: Stage, d: u64) -> Stage
    ensures { result ≡ past_digit stage d }
{
    if stage == Stage::Start && d == 0 {
        return Stage::Zero;
    }
    Stage::Digits
}

// A digit after the point is one more.
fn past_place(places: u64, point: bool) -> u64
    requires { places < PLACES }
    ensures { result ≡ past_place places point }
{
    if point {
        return places + 1;
    }
    places
}

// What a digit stands for in the base that has the most, and that base for what is no digit.
fn value_of(b: u8) -> u64
    ensures { result ≡ value_of b }
{
    if b < b'0' {
        return 16;
    }
    if b <= b'9' {
        return b as u64 - 48;
    }
    if b < b'a' {
        return 16;
    }
    if b <= b'f' {
        return b as u64 - 87;
    }
    16
}
