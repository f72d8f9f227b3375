// The rules to try. Which of them are lawful is told by a test, so that no proof has to follow how they are made.
ghost use Rattle.std.specs.Prelude.{IsTrue, All};
ghost use Rattle.word.specs.Word.{IsWidth};
ghost use Rattle.rule.specs.Meaning.{Lawful};
ghost use Rattle.trial.specs.trial_direct.Trial.{Narrow};

use crate::trial_direct::direct;
use rule::Rule;
use word::Width;

/// The least number past the forms.
pub const NO_FORM: u64 = Rule::FORMS + 1;

/// Each form in each of two senses.
pub const KINDS: u64 = 2 * Rule::FORMS;

pub fn rule(form: u64, sense: u64, c1: u64, c2: u64) -> Rule {
    Rule {
        form,
        sense,
        c1,
        c2,
    }
}

/// How many numbered rules there are: a kind, with two words.
pub fn count(width: Width) -> u64
    requires { Narrow width.bits }
{
    KINDS << (2 * width.bits)
}

/// The rule of a number: of those below the count, each form in each sense with each two words is the rule of one.
pub fn numbered(i: u64, width: Width) -> Rule
    requires { Narrow width.bits }
{
    let n = direct::size(width);
    rule(
        1 + i % Rule::FORMS,
        i / Rule::FORMS % 2,
        i / KINDS % n,
        i / KINDS / n % n,
    )
}

/// Whether two rules have the same numbers.
pub fn same(a: Rule, b: Rule) -> bool {
    (a.form, a.sense, a.c1, a.c2) == (b.form, b.sense, b.c1, b.c2)
}

/// The rule with the other sense.
pub fn negated(rule: Rule) -> Rule {
    Rule {
        sense: rule.sense ^ 1,
        ..rule
    }
}

/// The rule without the constant that it does not use: forms 4, 5 and 6 use c1 only, and are accepted where c2 is 0.
pub fn used(rule: Rule) -> Rule {
    match rule.form {
        4..=6 => Rule { c2: 0, ..rule },
        _ => rule,
    }
}

/// Whether a bit rule's value has a bit outside its mask: no word meets it, and a sheet refuses it.
pub fn strays(rule: Rule) -> bool {
    rule.form == 7 && rule.c2 & rule.c1 != rule.c2
}

/// Whether the leaves take the rule: its constants are words, and a bit rule is not negated.
pub fn lawful(rule: Rule, width: Width) -> bool
    requires { IsWidth width.bits }
    ensures { IsTrue result → Lawful width.bits rule }
{
    let top = width.top();
    rule.c1 <= top && rule.c2 <= top && (rule.form != 7 || rule.sense == 0)
}

/// Whether they take all of them.
pub fn all_lawful(rules: &[Rule], width: Width) -> bool
    requires { IsWidth width.bits }
    ensures { IsTrue result → All (Lawful width.bits) rules.now }
{
    rules.iter().all(|rule| lawful(*rule, width))
}
