// Rules drawn by a fixed rule, so that every run tries the same ones. Most rules of a sheet are made to let one word
// stand, so that sheets of many rules too have words that fit.
ghost use Rattle.std.specs.Prelude.{◌≤◌};
ghost use Rattle.word.specs.Word.{top};
ghost use Rattle.rule.specs.Meaning.{RULES};
ghost use Rattle.trial.specs.trial_direct.Trial.{Narrow};

use rule::Rule;
use trial::trial_direct::draw::next;
use trial::trial_direct::rules::rule;
use trial::trial_direct::{direct, rules};
use word::Width;

/// How many rules a sheet has: up to the limit, and on every other sheet up to 7.
pub fn count(s: u64) -> usize
    ensures { result ≤ RULES }
{
    let n = (s >> 8) as usize;
    if s & 1 == 0 {
        n % (Rule::LIMIT + 1)
    } else {
        n % 8
    }
}

/// The n rules that the seed draws, in the first places.
pub fn rules(seed: u64, n: usize, width: Width) -> [Rule; Rule::LIMIT]
    requires { Narrow width.bits }
{
    let x = (seed >> 32) % direct::size(width);
    let mut rules = [rule(1, 0, 0, 0); Rule::LIMIT];
    let mut s = seed;
    for place in rules.iter_mut().take(n) {
        s = next(s);
        *place = drawn(s, width, x);
    }
    rules
}

// The rule that s draws. One in sixteen may forbid x.
fn drawn(s: u64, width: Width, x: u64) -> Rule
    requires narrow { Narrow width.bits }
    requires x_bound { x ≤ top width.bits }
{
    let size = direct::size(width);
    let form = 1 + s % Rule::FORMS;
    let c1 = (s >> 8) % size;
    let c2 = (s >> 20) % size;
    let free = s >> 60 == 0;
    if form == 7 {
        let mask = c1 & c2;
        let bits = if free { x ^ 1 } else { x };
        return rule(form, 0, mask, mask & bits);
    }
    let any = rule(form, s >> 40 & 1, c1, c2);
    if free { any } else { letting(any, width, x) }
}

// The rule, or its negation, whichever x meets.
fn letting(rule: Rule, width: Width, x: u64) -> Rule
    requires narrow { Narrow width.bits }
    requires x_bound { x ≤ top width.bits }
{
    if rules::lawful(rule, width) && direct::meets(rule, width, x) {
        rule
    } else {
        rules::negated(rule)
    }
}
