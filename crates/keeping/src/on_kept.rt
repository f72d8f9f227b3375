// What is asked of a sheet that a caller keeps, and does not change it: the verdict with its chain, how many words fit, and which. Each
// tests the numbers for 17 as the call beneath does.

ghost use Rattle.keeping.specs.on_kept.Told.{Asked, Counted, Listed};

use crate::read;

/// Says what is kept and, for "none", writes the chain.
pub fn ask(numbers: &[u64; crate::NUMBERS], links: &mut [u64], answer: &mut [u64; 4]) -> u64
    ensures { Asked numbers.now links.old links.new answer.new result }
{
    let reply = read(*numbers).ask(links);
    let kept = reply.kept;
    *answer = [
        kept.verdict,
        kept.smallest,
        kept.largest,
        reply.links as u64,
    ];
    reply.number
}

/// Counts the words that fit the sheet.
pub fn count(numbers: &[u64; crate::NUMBERS], answer: &mut [u64; 2]) -> u64
    ensures { Counted numbers.now answer.new result }
{
    let share = counting::count(read(*numbers));
    *answer = [share.quotient, share.remainder];
    share.number
}

/// Lists the words that fit the sheet, from a start on.
pub fn list(
    numbers: &[u64; crate::NUMBERS],
    start: u64,
    words: &mut [u64],
    written: &mut u64,
) -> u64
    ensures { Listed numbers.now start words.old words.new written.new result }
{
    let listing = listing::list(read(*numbers), start, words);
    *written = listing.written as u64;
    listing.number
}
