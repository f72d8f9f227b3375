// The numbers that a call finds from the head before it does anything.
ghost use Rattle.std.specs.Prelude.{◌≡◌};
ghost use Rattle.word.specs.Word.{IsWidth};
ghost use Rattle.sheet.specs.slate.route.Numbers.{before, rule_number};

use crate::slate::Head;
use rule::Rule;
use word::{Edition, Width};

// What every call but an opening looks at first: 17 where the record is no sheet, 1 on the blank sheet.
#[tactic(auto, using(crate::proofs::slate::SearchRefusingRefuses::wanted), unfolding(crate::specs::slate::route::Numbers::before))]
pub fn refuses(head: Head) -> u64
    ensures { result ≡ before head.stands head.opening.width }
{
    let fallen = !head.stands;
    let blank = head.opening.width == 0;
    if fallen {
        return 17;
    }
    if blank {
        return 1;
    }
    0
}

// The number with which a rule is refused, or 0. Another edition's frame is refused whatever its rule.
#[tactic(auto, using(crate::proofs::slate::SearchRefusingRefusesRule::wanted))]
pub fn refuses_rule(head: Head, edition: Edition, rule: Rule) -> u64
    requires { before head.stands head.opening.width ≡ 0 → IsWidth head.opening.width }
    ensures { result ≡ rule_number head edition rule }
{
    let count = head.counts.count;
    let kind = head.opening.edition;
    let other = !edition.same(kind);
    let number = refuses(head);
    if number != 0 {
        return number;
    }
    let bad = rule::accept::refusal_of(
        rule,
        Width {
            bits: head.opening.width,
        },
    );
    let unlawful = bad != 0;
    let full = Rule::LIMIT <= count;
    if other {
        return 11;
    }
    if unlawful {
        return bad;
    }
    if full {
        return 6;
    }
    0
}
