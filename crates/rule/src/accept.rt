// Whether a rule is accepted at a width, and whether a place has no rule.
ghost use Rattle.std.specs.Prelude.{◌≡◌};
ghost use Rattle.word.specs.Word.{IsWidth};
ghost use Rattle.rule.specs.accept.Accept.{bad_constant, bad_form, bad_sense, is_no_rule, refusal_of, stray_bit};

use crate::Rule;
use word::Width;

// The number with which a rule is refused at a width, or 0: 3 before 4, and 4 before 5.
#[tactic(auto, unfolding(crate::specs::accept::Grounds::first_that_applies, crate::specs::accept::Accept::refusal_of, crate::specs::accept::Accept::rule_grounds))]
pub fn refusal_of(rule: Rule, width: Width) -> u64
    requires { IsWidth width.bits }
    ensures { result ≡ refusal_of width.bits rule }
{
    let form = bad_form(rule);
    let sense = bad_sense(rule);
    let constant = bad_constant(rule, width);
    if form {
        return 3;
    }
    if sense {
        return 4;
    }
    if constant {
        return 5;
    }
    0
}

// A form outside the table: 0, or past the last.
#[tactic(auto, unfolding(crate::specs::accept::Accept::bad_form))]
fn bad_form(rule: Rule) -> bool
    ensures { result ≡ bad_form rule }
{
    rule.form < 1 || Rule::FORMS < rule.form
}

// A sense above 1, or sense 1 with form 7.
#[tactic(auto, unfolding(crate::specs::accept::Accept::bad_sense))]
fn bad_sense(rule: Rule) -> bool
    ensures { result ≡ bad_sense rule }
{
    1 < rule.sense || rule.sense == 1 && rule.form == 7
}

// A constant above the top word, a bit in c2 that c1 lacks in form 7, or c2 not zero in forms 4, 5, 6.
#[tactic(auto, unfolding(crate::specs::accept::Accept::bad_constant))]
fn bad_constant(rule: Rule, width: Width) -> bool
    requires { IsWidth width.bits }
    ensures { result ≡ bad_constant width.bits rule }
{
    let top = width.top();
    let stray = stray_bit(rule);
    top < rule.c1 || top < rule.c2 || stray || rule.c2 != 0 && 4 <= rule.form && rule.form <= 6
}

// A bit in c2 that c1 lacks, in form 7.
#[tactic(auto, unfolding(crate::specs::accept::Accept::stray_bit))]
fn stray_bit(rule: Rule) -> bool
    ensures { result ≡ stray_bit rule }
{
    rule.form == 7 && rule.c2 & rule.c1 != rule.c2
}

// Whether a place has no rule: zeros.
#[tactic(auto, unfolding(crate::specs::accept::Accept::is_no_rule))]
pub fn is_no_rule(rule: Rule) -> bool
    ensures { result ≡ is_no_rule rule }
{
    rule == Rule::NONE
}
