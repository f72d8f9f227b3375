// A word held to a rule, in numbers.

ghost use Rattle.std.specs.Prelude.{◌≡◌};
ghost use Rattle.outside.specs.handing.Handed.{rule_in, weigh_number, weighed};

use crate::handing::{NUMBERS, rule_in, weighable};

/// Whether a word meets a rule.
pub fn meets(width: u64, rule: &[u64; NUMBERS], word: u64, meets: &mut u64) -> u64
    ensures value { result ≡ weigh_number width (rule_in rule.now) word }
    ensures meets_after { meets.new ≡ weighed width (rule_in rule.now) word }
{
    let asked = rule_in(rule);
    match weighable(width, asked, word) {
        Ok(bits) => {
            *meets = asked.meets(bits, word) as u64;
            0
        }
        Err(number) => {
            *meets = 0;
            number
        }
    }
}
