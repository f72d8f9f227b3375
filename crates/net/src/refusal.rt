// What refuses a net, in the paper's order: 16 before anything else, then 2, 5 and 15 as for a join.
ghost use Rattle.std.specs.Prelude.{◌≡◌};
ghost use Rattle.net.specs.Net.{refusal};
ghost use Rattle.net.specs.refusal.Refusal.{number_of, told};

use crate::Net;
use crate::net_tests::{all_within, fits, none_hollow};
use span::is_width;
use word::Width;

/// Why a net is refused: it has too many words or joins, or a join that names a word that isn't there; or as a join is.
#[derive(Clone, Copy, Debug, PartialEq, Eq)]
pub enum Refusal {
    Room,
    Join(span::Refusal),
}

impl Refusal {
    /// The number of the refusal.
    #[tactic(auto, unfolding(crate::specs::refusal::Refusal::number_of))]
    pub fn number(self) -> u64
        ensures { result ≡ number_of self }
    {
        match self {
            Refusal::Room => 16,
            Refusal::Join(refusal) => refusal.number(),
        }
    }
}

impl Net {
    /// What refuses it, or nothing.
    #[tactic(auto, using(crate::proofs::SearchNetRefusal::wanted), unfolding(crate::specs::Net::refusal, crate::specs::refusal::Refusal::told, crate::specs::refusal::Refusal::number_of, span::specs::refusal::Refusal::number_of))]
    pub fn refusal(self) -> Option<Refusal>
        ensures { told result ≡ refusal self }
    {
        let fit = fits(self.count, &self.joins, self.joined);
        let wide = is_width(self.width);
        if !fit {
            return Some(Refusal::Room);
        }
        if !wide {
            return Some(Refusal::Join(span::Refusal::Width));
        }
        let words = &self.words[..self.count];
        let top = Width { bits: self.width }.top();
        if !all_within(words, top) {
            return Some(Refusal::Join(span::Refusal::Bound));
        }
        if !none_hollow(words) {
            return Some(Refusal::Join(span::Refusal::Order));
        }
        None
    }
}
