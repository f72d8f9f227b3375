use batch::Batch;
use page::Opening;
use rule::Rule;
use word::Edition;

// Whether some word of 4 bits fits both rules. For n rules a chain takes up to 3 * (4 * n + 1) numbers.
pub fn fit(one: Rule, other: Rule) -> bool {
    let mut rules = [one; Batch::MOST];
    rules[1] = other;
    let mut chain = [0; 27];
    let opening = Opening {
        width: 4,
        edition: Edition::New,
    };
    let batch = batch::first(opening, rules, 2, &mut chain);
    let reply = batch.reply;
    let kept = reply.kept;
    if reply.number != 0 {
        return false;
    }
    kept.verdict != 0
}
