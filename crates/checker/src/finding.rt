// What a list of links breaks, clause by clause of the paper, and the clauses on where a link lies.

ghost use Rattle.std.specs.Prelude.{◌≡◌};
ghost use Rattle.checker.specs.finding.Clauses.{first_broken, lie_clauses};

use chain::Link;

/// The first clause that a list of links does not keep: where it is one of a link with that link's number, counted from 0, and where
/// it is one of the words with the smallest word of the link that meets what each should fail.
#[derive(Clone, Copy, Debug, PartialEq, Eq)]
pub enum Breach {
    NoSheet,
    Empty,
    Ragged,
    Backward { link: usize },
    AboveTop { link: usize },
    NotFromZero { link: usize },
    Gap { link: usize },
    NoRule { link: usize },
    BitRule { link: usize },
    MeetsRule { link: usize, word: u64 },
    MeetsBits { link: usize, word: u64 },
    Short,
}

/// The clauses on where a link lies. The largest end so far may be the largest number there is, so nothing is added to it.
#[tactic(auto, using(crate::proofs::finding::SearchLies::wanted), unfolding(crate::specs::finding::Clauses::first_broken, crate::specs::finding::Clauses::lie_clauses))]
pub fn lies(link: Link, number: usize, end: u64, top: u64) -> Result<(), Breach>
    ensures { result ≡ first_broken (lie_clauses top number end link) }
{
    if link.to < link.from {
        return Err(Breach::Backward { link: number });
    }
    if top < link.to {
        return Err(Breach::AboveTop { link: number });
    }
    if number == 0 && link.from != 0 {
        return Err(Breach::NotFromZero { link: number });
    }
    if number != 0 && end < link.from && link.from - end != 1 {
        return Err(Breach::Gap { link: number });
    }
    Ok(())
}
