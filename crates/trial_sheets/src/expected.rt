// What is to be said of a sheet: the verdict with its words, and the number of links. The links stand in a lent buffer.
use rule::Rule;
use trial::trial_direct::cases::Case;

/// The most links: 4n + 1 of n rules.
pub const LINKS: usize = 4 * Rule::LIMIT + 1;

/// The numbers of a buffer, three a link.
pub const NUMBERS: usize = 3 * LINKS;

/// The verdict, its words, and how many links there are.
#[derive(Clone, Copy, Debug, PartialEq, Eq)]
pub struct Expected {
    pub verdict: u64,
    pub smallest: u64,
    pub largest: u64,
    pub links: usize,
}

impl Expected {
    /// The answer none, with a chain.
    pub fn none(links: usize) -> Expected {
        Expected {
            verdict: 0,
            smallest: 0,
            largest: 0,
            links,
        }
    }

    /// The answer one or many.
    pub fn some(smallest: u64, largest: u64) -> Expected {
        Expected {
            verdict: if smallest == largest { 1 } else { 2 },
            smallest,
            largest,
            links: 0,
        }
    }
}

/// What the paper says of a case. Puts its links into the buffer.
pub fn of_case(case: Case, out: &mut [u64; NUMBERS]) -> Expected {
    let numbers = case.links.iter().flat_map(|link| link.numbers());
    for (place, number) in out.iter_mut().zip(numbers) {
        *place = number;
    }
    Expected {
        verdict: case.verdict,
        smallest: case.smallest,
        largest: case.largest,
        links: case.links.len(),
    }
}
