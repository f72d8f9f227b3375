// The paper's sheets worked by hand, word by word.
ghost use Rattle.std.specs.Prelude.{◌≤◌};

use rule::Rule;
use trial::trial_direct::cases::{CASE2, CASES, Case};
use trial::trial_direct::{cases, rules};
use trial::trial_tally::Tally;
use word::Width;

// The sheets of width 4 that have rules: cases 2 to 12, with case 3 as written and negated.
const SHEETS: usize = 12;

// The words of width 4.
const WORDS: u64 = 16;

pub fn cases() -> Tally {
    let sheets: Tally = CASES
        .iter()
        .skip(CASE2)
        .take(SHEETS)
        .map(|case| of_case(*case))
        .sum();
    answers().plus(sheets)
}

fn of_case(case: Case) -> Tally {
    (0..WORDS).map(|x| Tally::one(same(case, x))).sum()
}

// A wrong set of words: word 0 is in it or out of it wrongly.
pub fn known() -> Tally {
    let case = cases::at(CASE2);
    let wrong = Case {
        words: case.words ^ 1,
        ..case
    };
    Tally::one(same(wrong, 0))
}

// Whether x meets the rules of a case just where it is in the case's set.
fn same(case: Case, x: u64) -> bool
    requires { x ≤ 15 }
{
    let inside = case.words >> x & 1 == 1;
    inside == case.rules.iter().all(|rule| meets(*rule, x))
}

// Whether x meets the rule. The constants are words of width 4 and no bit rule here is negated, so every rule is lawful.
fn meets(rule: Rule, x: u64) -> bool
    requires { x ≤ 15 }
{
    let width = Width { bits: 4 };
    rules::lawful(rule, width) && rule.meets(width, x)
}

// Word 13 reads as -3 at width 4, and at width 64 the sum of the top word and 1 is 0. At width 32 case 3 negated has the top word, and
// neither of the words beside it.
fn answers() -> Tally {
    [
        Width { bits: 4 }.signed(13) == -3,
        Width { bits: 64 }.add(u64::MAX, 1) == 0,
        !wraps(0xffff_fffe),
        wraps(0xffff_ffff),
        !wraps(0),
    ]
    .into_iter()
    .map(|same| Tally::one(same))
    .sum()
}

fn wraps(x: u64) -> bool
    requires { x ≤ 4294967295 }
{
    let negated = Rule {
        form: 1,
        sense: 1,
        c1: 0,
        c2: 1,
    };
    negated.meets(Width { bits: 32 }, x)
}
