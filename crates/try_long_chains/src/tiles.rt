// Sheets of tiles: rules that forbid a few words each, one after another round the wheel, so that a chain takes many links. One rule wants
// words to be odd, and even words may be left to it.
ghost use Rattle.std.specs.Prelude.{◌<◌, ◌≤◌, length};
ghost use Rattle.rule.specs.Meaning.{RULES};
ghost use Rattle.trial.specs.trial_direct.Trial.{Narrow};

use rule::Rule;
use trial::trial_direct::direct;
use trial::trial_direct::draw::next;
use trial::trial_direct::rules::rule;
use word::Width;

// Some rules, the first n of them.
#[derive(Clone, Copy)]
pub struct Tiles {
    rules: [Rule; Rule::LIMIT],
    n: usize,
    ghost within: { n ≤ RULES },
}

impl Tiles {
    pub fn rules(&self) -> &[Rule]
        ensures { length result.now ≤ RULES }
    {
        &self.rules[..self.n]
    }

    // The same with every word drawn out to a block of as many words as so many bits have.
    pub fn drawn_out(self, by: u64) -> Tiles
        requires { by < 64 }
    {
        Tiles {
            rules: self.rules.map(|rule| block(rule, by)),
            n: self.n,
        }
    }
}

// The tiles that a seed draws, numbered in a drawn order.
pub fn laid(seed: u64, width: Width) -> Tiles
    requires { Narrow width.bits }
{
    let size = direct::size(width);
    let mut rules = [rule(7, 0, 1, 1); Rule::LIMIT];
    let mut s = seed;
    let mut n = 1;
    for at in 0..size {
        s = next(s);
        if n < Rule::LIMIT && is_start(s, at) {
            rules[n] = tile(s >> 8, at, size - 1);
            n += 1;
        }
    }
    mix(&mut rules[..n], s);
    Tiles { rules, n }
}

// Whether a tile starts at a word: at every odd word, and at one even word in four.
fn is_start(s: u64, at: u64) -> bool {
    at & 1 == 1 || s & 3 == 0
}

// A tile of one to four words, round past the top word where it has to go: form 3 negated, whose words inside fail, or as written, whose
// words outside do.
fn tile(s: u64, at: u64, top: u64) -> Rule {
    let length = 1 + s % 4;
    let c1 = at.wrapping_neg() & top;
    if s >> 4 & 1 == 0 {
        return rule(3, 1, c1, length - 1);
    }
    rule(
        3,
        0,
        c1.wrapping_sub(length) & top,
        top.wrapping_sub(length) & top,
    )
}

// Each rule is changed about with another one that is drawn.
fn mix(rules: &mut [Rule], seed: u64) {
    let mut s = seed;
    for i in 0..rules.len() {
        s = next(s);
        let j = s as usize % Rule::LIMIT;
        if j < rules.len() {
            rules.swap(i, j);
        }
    }
}

// A rule of form 3 or 7 that the words of a block meet where their word meets this one.
fn block(narrow: Rule, by: u64) -> Rule
    requires { by < 64 }
{
    let c1 = narrow.c1 << by;
    let c2 = narrow.c2 << by;
    if narrow.form == 7 {
        return rule(7, 0, c1, c2);
    }
    rule(narrow.form, narrow.sense, c1, last(c2, by))
}

// The last word of a block.
pub fn last(first: u64, by: u64) -> u64
    requires { by < 64 }
{
    first | (1 << by) - 1
}
