// Asking on a slate: what is kept is said and, where no word fits, the chain is written. No mark is looked at, and nothing on the slate changes.
ghost use Rattle.std.specs.Prelude.{◌≡◌, List, ℕ};
ghost use Rattle.sheet.specs.slate.route.Held.{Held};
ghost use Rattle.sheet.specs.slate_ask.Reply.{refuses};
ghost use Rattle.sheet.specs.slate_ask.route.Asks.{Asks};

use crate::slate::Head;
use rule::Rule;
use search::rows::NUMBERS;
use search::verdict::Kept;
use word::Width;

// What asking answers: 0 or the number of a refusal, what is kept, and how many links were written.
#[derive(Clone, Copy, PartialEq, Eq)]
pub struct Reply {
    pub number: u64,
    pub kept: Kept,
    pub links: usize,
}

// Says what is kept and, for "none", writes the chain.
pub fn ask(head: Head, rows: &[[u64; NUMBERS]; Rule::LIMIT], out: &mut [u64]) -> Reply
    requires { (marks : List ℕ) × Held head rows.now marks }
    ensures { Asks head rows.now out.old out.new result }
{
    let number = crate::slate::refuses(head);
    if number != 0 {
        return refusal(number);
    }
    let count = head.counts.count;
    let kept = head.kept;
    if out.len() < chain::room(count) {
        return refusal(9);
    }
    let fits = kept.verdict != 0;
    if fits {
        return Reply {
            number: 0,
            kept,
            links: 0,
        };
    }
    let bits = Width {
        bits: head.opening.width,
    };
    let links = chain::linking::write(rows, count, head.fixed, bits, out);
    Reply {
        number: 0,
        kept,
        links,
    }
}

// A refusal of asking: its number, and zeros in the other places.
pub fn refusal(number: u64) -> Reply
    ensures { result ≡ refuses number }
{
    Reply {
        number,
        kept: Kept {
            verdict: 0,
            smallest: 0,
            largest: 0,
        },
        links: 0,
    }
}
