// The chain of links from zero to the top word that shows why no word fits.
#![tactic(auto)]

pub mod due;
pub mod link_step;
pub mod linking;
pub mod reach;

ghost use Rattle.std.specs.Prelude.{◌≡◌, ◌++◌, ◌∷◌, ◌+◌, ◌≤◌, drop, length, take};
ghost use Rattle.rule.specs.Meaning.{RULES};
ghost use Rattle.chain.specs.Links.{chain_room, further, link_from};

use rule::Rule;

// The furthest that a rule outside form 7 reaches from a word that fails it, and that rule's number.
#[derive(Clone, Copy)]
pub enum Far {
    To { reach: u64, rule: u64 },
    Nowhere,
}

impl Far {
    // This, or a rule that reaches further.
    #[tactic(auto, using(crate::proofs::SearchFarFurther::wanted), unfolding(crate::specs::Links::further))]
    pub fn further(self, reach: u64, rule: u64) -> Far
        ensures { result ≡ further self reach rule }
    {
        let Far::To {
            reach: best,
            rule: _,
        } = self
        else {
            return Far::To { reach, rule };
        };
        if best < reach {
            return Far::To { reach, rule };
        }
        self
    }
}

// The words from one to another, and why they fail: a rule's number, or 255.
#[derive(Clone, Copy)]
pub struct Link {
    pub from: u64,
    pub to: u64,
    pub reason: u64,
}

impl Link {
    // The reason of a link whose words fail a form 7 rule.
    pub const BITS: u64 = 255;

    // A link is so many numbers in a buffer.
    pub const NUMBERS: usize = 3;

    // So many links for each rule, and one more, are the most that a chain has.
    pub const PER_RULE: usize = 4;

    // The most links that a full sheet gives, and the numbers that they take.
    pub const MOST: usize = Link::PER_RULE * Rule::LIMIT + 1;

    pub const ROOM: usize = Link::NUMBERS * Link::MOST;
}

// The numbers that the chain of n rules may take: what has to be lent for it.
pub fn room(n: usize) -> usize
    requires { n ≤ RULES }
    ensures { result ≡ chain_room n }
{
    Link::NUMBERS * (Link::PER_RULE * n + 1)
}

// Writes a link's three numbers.
pub fn put(out: &mut [u64], at: usize, link: Link)
    requires { at + 3 ≤ length out.old }
    ensures { out.new ≡ take at out.old ++ link.from ∷ link.to ∷ link.reason ∷ drop (at + 3) out.old }
{
    out[at] = link.from;
    out[at + 1] = link.to;
    out[at + 2] = link.reason;
}

// The link whose three numbers stand at a place.
pub fn link_from(numbers: &[u64], at: usize) -> Link
    requires { at + 3 ≤ length numbers.now }
    ensures { result ≡ link_from numbers.now at }
{
    Link {
        from: numbers[at],
        to: numbers[at + 1],
        reason: numbers[at + 2],
    }
}
