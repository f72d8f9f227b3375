// Writes every rule that a sheet accepts at the widths 1 to 4 and reads it back, and prints how many there are and how many read back as
// another rule. known compares each with its negation, which it never is.
//
// The counts: at a width with n words there are 2 n n of each of the forms 1, 2, 3 and 8, 2 n of 4, 5 and 6, and of form 7, in one sense, the
// pairs where c1 has every bit of c2, 3 to the width.
#![tactic(auto)]

ghost use Rattle.word.specs.Word.{IsWidth};
ghost use Rattle.trial.specs.trial_direct.Trial.{Narrow};

use line::Statement;
use rule::Rule;
use trial::trial_direct::rules;
use trial::trial_tally::Tally;
use word::Width;

// The widest words that every rule is tried on.
const WIDEST: u64 = 4;

fn main() {
    over_widths(false).print(b"back");
    over_widths(true).print(b"known");
}

fn over_widths(turned: bool) -> Tally {
    let mut tally = Tally::none();
    for bits in 1..WIDEST + 1 {
        tally = tally.plus(over_rules(turned, Width { bits }));
    }
    tally
}

// Every rule of a width.
fn over_rules(turned: bool, width: Width) -> Tally
    requires { Narrow width.bits }
{
    let mut tally = Tally::none();
    for i in 0..rules::count(width) {
        let rule = rules::numbered(i, width);
        if rule::accept::refusal_of(rule, width) == 0 {
            tally = tally.plus(Tally::one(reads_back(rule, turned, width)));
        }
    }
    tally
}

// Whether the text of a rule reads back as that rule, or as its negation.
fn reads_back(rule: Rule, turned: bool, width: Width) -> bool
    requires { IsWidth width.bits }
{
    let mut text = [0u8; wording::ROOM];
    let end = wording::put_rule(&mut text, 0, rule, width);
    let statement = line::read(&text[..end], width).statement;
    let Statement::Rule(back) = statement else {
        return false;
    };
    if turned {
        return rules::same(back, rules::negated(rule));
    }
    rules::same(back, rule)
}
