// Rules laid on the wheel of words. The words that meet a rule as written are one arc of the wheel, so the words that
// fail it come in at most two runs, and a run's ends take a few comparisons.
ghost use Rattle.std.specs.Prelude.{◌≡◌, ◌-◌, ◌≤◌, false};
ghost use Rattle.word.specs.Word.{IsWidth};
ghost use Rattle.word.specs.Search.{climb, sink};
ghost use Rattle.rule.specs.band.route.Band.{Laid, band_of, by_sense, holds, seamless, settled_band, span, turned_band, wheel, within, written_band};

use crate::Rule;
use word::Width;

// An arc, the words from one up to another, round past the top word where the second is below the first, and the side of it
// that fails.
#[derive(Clone, Copy)]
pub struct Band {
    pub from: u64,
    pub to: u64,
    pub inside: bool,
}

// Words in a row, both ends included.
#[derive(Clone, Copy)]
pub struct Run {
    pub from: u64,
    pub to: u64,
}

impl Band {
    // The rule's band: its form's, and the sense says which side fails.
    pub fn of(rule: Rule, width: Width) -> Band
        requires { IsWidth width.bits }
        ensures { result ≡ band_of width.bits rule }
    {
        Band::written(rule, width)
            .seamless(width)
            .by_sense(rule.sense)
    }

    // Whether the word x is on the side that does not fail.
    #[tactic(auto, using(crate::proofs::SearchBandBandHolds::wanted))]
    pub fn holds(self, x: u64) -> bool
        ensures { result ≡ holds self x }
    {
        let inner = within(self.from, self.to, x);
        if self.inside { !inner } else { inner }
    }

    // The run of failing words around a failing p.
    pub fn run(self, top: u64, p: u64) -> Run
        requires { (Laid top self) × (p ≤ top) × (holds self p ≡ false) }
        ensures { (result.from ≡ sink (holds self) p) × (result.to ≡ climb (holds self) (top - p) p) }
    {
        Run {
            from: self.start(top, p),
            to: self.reach(top, p),
        }
    }

    // The same band on the wheel of words turned round, where x stands at top - x.
    pub fn turned(self, top: u64) -> Band
        requires { Laid top self }
        ensures { result ≡ turned_band top self }
    {
        Band {
            from: top - self.to,
            to: top - self.from,
            inside: self.inside,
        }
    }

    // The band of the rule as written.
    #[tactic(auto, using(crate::proofs::SearchBandBandWritten::wanted), unfolding(crate::specs::band::route::Band::written_bands))]
    fn written(rule: Rule, width: Width) -> Band
        requires { IsWidth width.bits }
        ensures { result ≡ written_band width.bits rule }
    {
        let top = width.top();
        match rule.form {
            1 => Band::span(width.sub(0, rule.c1), width.sub(top, rule.c2)),
            2 => Band::span(width.sub(rule.c1, rule.c2), width.sub(top, rule.c2)),
            3 => Band::span(width.sub(0, rule.c1), width.sub(rule.c2, rule.c1)),
            4 => Band::span(width.half(), rule.c1),
            5 => Band::span(rule.c1, width.half() - 1),
            6 => Band::span(rule.c1, rule.c1),
            8 => Band::settled(rule, width),
            _ => Band::span(0, top),
        }
    }

    // The band of form 8 as written. Where the settling time is half or more no word is settled, and the whole wheel fails.
    fn settled(rule: Rule, width: Width) -> Band
        requires { IsWidth width.bits }
        ensures { result ≡ settled_band width.bits rule.c1 rule.c2 }
    {
        let half = width.half();
        if half <= rule.c2 {
            return Band::wheel(width.top(), true);
        }
        Band::span(width.add(rule.c1, rule.c2), width.add(rule.c1, half - 1))
    }

    // The band that holds the words from one to another, and no others.
    fn span(from: u64, to: u64) -> Band
        ensures { result ≡ span from to }
    {
        Band {
            from,
            to,
            inside: false,
        }
    }

    // The whole wheel, from 0 to the top word, with the inside failing or the outside, where no word is.
    fn wheel(top: u64, inside: bool) -> Band
        ensures { result ≡ wheel top inside }
    {
        Band {
            from: 0,
            to: top,
            inside,
        }
    }

    // A whole wheel is written from 0 to the top word, so that a run never stops at a seam.
    #[tactic(auto, using(crate::proofs::SearchBandBandSeamless::wanted))]
    fn seamless(self, width: Width) -> Band
        requires { IsWidth width.bits }
        ensures { result ≡ seamless width.bits self }
    {
        let top = width.top();
        if width.sub(self.to, self.from) == top {
            return Band::wheel(top, self.inside);
        }
        self
    }

    // As written, or where the rule is negated with the other side failing.
    fn by_sense(self, sense: u64) -> Band
        ensures { result ≡ by_sense sense self }
    {
        if sense == 0 {
            return self;
        }
        Band {
            from: self.from,
            to: self.to,
            inside: !self.inside,
        }
    }

    fn start(self, top: u64, p: u64) -> u64
        requires { (Laid top self) × (p ≤ top) × (holds self p ≡ false) }
        ensures { result ≡ sink (holds self) p }
    {
        if self.inside {
            if self.from <= p {
                return self.from;
            }
        } else if self.to < p {
            return self.to + 1;
        }
        0
    }

    fn reach(self, top: u64, p: u64) -> u64
        requires { (Laid top self) × (p ≤ top) × (holds self p ≡ false) }
        ensures { result ≡ climb (holds self) (top - p) p }
    {
        if self.inside {
            if p <= self.to {
                return self.to;
            }
        } else if p < self.from {
            return self.from - 1;
        }
        top
    }
}

// Whether x is met on the way up from one word to another: it is no further up than the last, on the wheel of machine words too, whatever
// the width.
fn within(from: u64, to: u64, x: u64) -> bool
    ensures { result ≡ within from to x }
{
    let far = to.wrapping_sub(from);
    x.wrapping_sub(from) <= far
}
