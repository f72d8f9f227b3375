// The words of a width, in plain numbers. Where a sum would pass the top word, what is left over is found by differences: no number
// above the top word is ever made, since 2^64 is none.
ghost use Rattle.word.specs.Word.{IsWidth};

/// The top word and half of it.
#[derive(Clone, Copy, Debug)]
pub struct Wheel {
    pub top: u64,
    pub half: u64,
}

impl Wheel {
    /// "Words run from 0 to the top word 2^w - 1. Half is 2^(w-1)."
    pub fn of(bits: u64) -> Wheel
        requires { IsWidth bits }
    {
        let half = 1 << (bits - 1);
        Wheel {
            top: half - 1 + half,
            half,
        }
    }

    /// a + b, modulo 2^w. (What is no word is answered with 0.)
    pub fn sum(self, a: u64, b: u64) -> u64 {
        if self.top < a {
            return 0;
        }
        let room = self.top - a;
        if b <= room { a + b } else { b - room - 1 }
    }

    /// a - b, modulo 2^w. (What is no word is answered with 0.)
    pub fn difference(self, a: u64, b: u64) -> u64 {
        if b <= a {
            return a - b;
        }
        let short = b - a;
        if self.top < short {
            0
        } else {
            self.top - short + 1
        }
    }

    /// "s(a) <= s(b)": from half on a word reads below zero, and stands before the words below half.
    pub fn in_signed_order(self, a: u64, b: u64) -> bool {
        match (a < self.half, b < self.half) {
            (true, false) => false,
            (false, true) => true,
            _ => a <= b,
        }
    }

    /// The corners: 0, 1, half - 1, half, top - 1 and top.
    pub fn corner(self, i: u64) -> u64 {
        match i {
            0 => 0,
            1 => 1,
            2 => self.difference(self.half, 1),
            3 => self.half,
            4 => self.difference(self.top, 1),
            _ => self.top,
        }
    }
}
