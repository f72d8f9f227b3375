// Vets a list of rules that a caller outside hands in: the batch call, in numbers.

ghost use Rattle.std.specs.Prelude.{◌≡◌, take};
ghost use Rattle.rule.specs.accept.Accept.{no_rule};
ghost use Rattle.page.specs.Page.{padded};
ghost use Rattle.batch.specs.course.Batch.{MOST};
ghost use Rattle.outside.specs.handing.Handed.{opening_of, rules_in};
ghost use Rattle.outside.specs.vetting.Vetted.{Vetted};

use crate::handing::{NUMBERS, rule_in};
use crate::over::lay_over;
use batch::Batch;
use rule::Rule;

/// Vets a list: the batch call.
pub fn vet(
    width: u64,
    edition: u64,
    rules: &[[u64; NUMBERS]],
    links: &mut [u64],
    answer: &mut [u64; 5],
) -> u64
    ensures { Vetted (opening_of width edition) (rules_in rules.now) links.old links.new answer.new result }
{
    let said = batch::beginning(
        crate::handing::opening(width, edition),
        first_rules(rules),
        rules.len(),
        links,
    );
    let reply = said.reply;
    let kept = reply.kept;
    *answer = [
        kept.verdict,
        kept.smallest,
        kept.largest,
        reply.links as u64,
        said.place as u64,
    ];
    reply.number
}

// The first rules of a list, as many as are looked at. Places not in use have no rule.
fn first_rules(rules: &[[u64; NUMBERS]]) -> [Rule; Batch::MOST]
    ensures { result ≡ padded MOST no_rule (take MOST (rules_in rules.now)) }
{
    let mut first = [Rule::NONE; Batch::MOST];
    lay_over(rules, &mut first, rule_in);
    first
}
