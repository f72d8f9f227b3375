// The numbers of the rules that a word fails, written into a lent buffer.

ghost use Rattle.std.specs.Prelude.{◌≡◌, ◌≤◌, length};
ghost use Rattle.word.specs.Word.{IsWidth, top};
ghost use Rattle.rule.specs.Meaning.{AllLawful, RULES};
ghost use Rattle.counting.specs.fitting.Words.{at_start};
ghost use Rattle.listing.specs.failed_rules.Failed.{failed};

use rule::Rule;
use word::Width;

/// Writes the numbers of those rules that the word fails, and says how many.
pub fn put_failed(rules: &[Rule], width: Width, x: u64, out: &mut [u64]) -> usize
    requires width { IsWidth width.bits }
    requires x_bound { (x ≤ top width.bits) × (length rules.now ≤ RULES) × AllLawful width.bits rules.now }
    requires n_in_bounds { length rules.now ≤ length out.old }
    ensures value { result ≡ length (failed width.bits x 0 rules.now) }
    ensures out_after { out.new ≡ at_start (failed width.bits x 0 rules.now) out.old }
{
    let mut written = 0;
    for (number, rule) in rules.iter().enumerate() {
        if !rule.meets(width, x) {
            out[written] = number as u64;
            written += 1;
        }
    }
    written
}
