// A chain as it is read: its links, and where each comes from.

ghost use Rattle.std.specs.Prelude.{◌≤◌};
ghost use Rattle.vet.specs.declared.gathering.chain_read.TheConstants.{LINKS};

use chain::Link;

/// The most links of a chain, and the numbers that they take.
pub const LINKS: usize = 32768;

const ROOM: usize = Link::NUMBERS * LINKS;

/// The line of a link, and whether a name stands for its reason.
#[derive(Clone, Copy, Default)]
pub struct Origin {
    pub line: u64,
    pub named: bool,
}

/// The numbers of so many links, as the check of a chain takes them; and beside them, since the check takes no more, where each link comes
/// from. Arrays of the most links, since no memory is asked for. Tried as an `ArrayVec`: made by value, one of this size overflows the stack.
#[derive(Drop)]
pub struct Chain {
    numbers: [u64; ROOM],
    origins: [Origin; LINKS],
    links: usize,
    ghost few: { links ≤ LINKS },
}

impl Chain {
    ghost use Rattle.std.specs.Prelude.{◌≡◌};
    ghost use Rattle.vet.specs.gathering.Read.{numbers_in};

    /// A chain without links.
    pub fn new() -> Chain {
        Chain {
            numbers: [0; ROOM],
            origins: [Origin::default(); LINKS],
            links: 0,
        }
    }

    /// The numbers of all links.
    pub fn numbers(&self) -> &[u64]
        ensures { result.now ≡ numbers_in self.now }
    {
        &self.numbers[..Link::NUMBERS * self.links]
    }

    /// Where a link comes from.
    pub fn origin(&self, link: usize) -> Option<Origin> {
        self.origins.get(link).copied()
    }

    /// The reason of a link.
    pub fn reason(&self, link: usize) -> Option<u64> {
        if link < self.links {
            Some(self.numbers[Link::NUMBERS * link + 2])
        } else {
            None
        }
    }

    /// Takes a link more, and says whether there was room for it.
    pub fn push(&mut self, link: Link, origin: Origin) -> bool {
        let links = self.links;
        if links == LINKS {
            return false;
        }
        let first = Link::NUMBERS * links;
        self.numbers[first] = link.from;
        self.numbers[first + 1] = link.to;
        self.numbers[first + 2] = link.reason;
        self.origins[links] = origin;
        self.links = links + 1;
        true
    }

    /// Puts another reason in the place of that of a link.
    pub fn put_reason(&mut self, link: usize, reason: u64) {
        if link < self.links {
            self.numbers[Link::NUMBERS * link + 2] = reason;
        }
    }

    /// The name of a link stands for its reason no longer.
    pub fn settle(&mut self, link: usize) {
        if link < self.links {
            self.origins[link].named = false;
        }
    }
}
