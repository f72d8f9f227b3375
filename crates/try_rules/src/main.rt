// Tries the leaves on every constant of the widths 1 to 4, against a plain search, and on the paper's values.
//
// The counts: over the four widths there are S = 8 + 64 + 512 + 4096 pairs of constants with a word. meets has 15 S, as
// form 7 has one sense, and holds 14 S; runs has 7 S, as a word fails either a rule or its negation. paper has 12 sheets
// of 16 words, and 5 answers. known has a wrong expectation for each way to compare: one for meets and for holds, two for a
// run, one for a set of words.
#![tactic(auto)]

mod paper;

ghost use Rattle.std.specs.Prelude.{◌≤◌};
ghost use Rattle.word.specs.Word.{top};
ghost use Rattle.rule.specs.Meaning.{Lawful};
ghost use Rattle.trial.specs.trial_direct.Trial.{Narrow};

use rule::Rule;
use rule::band::Band;
use trial::trial_direct::rules::{negated, rule};
use trial::trial_direct::{direct, rules};
use trial::trial_tally::Tally;
use word::Width;

// The widest words that every rule is tried on.
const WIDEST: u64 = 4;

// What is looked at, of a rule and a word.
#[derive(Clone, Copy)]
enum Look {
    Meets,
    Holds,
    Runs,
}

fn main(rt: HostRuntime) {
    let _ = println!(rt; "meets {}", over_widths(Look::Meets));
    let _ = println!(rt; "holds {}", over_widths(Look::Holds));
    let _ = println!(rt; "runs {}", over_widths(Look::Runs));
    let _ = println!(rt; "paper {}", paper::cases());
    let _ = println!(rt; "known {}", known());
}

fn over_widths(look: Look) -> Tally {
    (1..WIDEST + 1)
        .map(|bits| over_rules(look, Width { bits }))
        .sum()
}

// Every rule with every word.
fn over_rules(look: Look, width: Width) -> Tally
    requires { Narrow width.bits }
{
    let n = direct::size(width);
    (0..rules::count(width) << width.bits)
        .map(|i| {
            let rule = rules::numbered(i / n, width);
            at_word(look, rule, rule, width, i % n)
        })
        .sum()
}

// One answer on a rule compared with what a direct search says of the expected rule, which is another only where a known
// difference is tried. None where a rule is not lawful; a rule of form 7 has no band, and only a word that fails is in a run.
fn at_word(look: Look, rule: Rule, expected: Rule, width: Width, x: u64) -> Tally
    requires narrow { Narrow width.bits }
    requires x_bound { x ≤ top width.bits }
{
    if !rules::lawful(rule, width) {
        return Tally::none();
    }
    if !rules::lawful(expected, width) {
        return Tally::none();
    }
    compared(look, rule, expected, width, x)
}

fn compared(look: Look, rule: Rule, expected: Rule, width: Width, x: u64) -> Tally
    requires narrow { Narrow width.bits }
    requires lawful { Lawful width.bits rule × Lawful width.bits expected }
    requires x_bound { x ≤ top width.bits }
{
    let meets = direct::meets(expected, width, x);
    match look {
        Look::Meets => Tally::one(rule.meets(width, x) == meets),
        Look::Holds if rule.form != 7 => Tally::one(Band::of(rule, width).holds(x) == meets),
        Look::Runs if rule.form != 7 && !meets => Tally::one(same_run(rule, expected, width, x)),
        _ => Tally::none(),
    }
}

// Whether the run around a failing p starts and ends where a walk from p does.
fn same_run(rule: Rule, expected: Rule, width: Width, p: u64) -> bool
    requires narrow { Narrow width.bits }
    requires lawful { Lawful width.bits rule × Lawful width.bits expected }
    requires p_bound { p ≤ top width.bits }
{
    let band = Band::of(rule, width);
    if band.holds(p) {
        return false;
    }
    let run = band.run(width.top(), p);
    let n = direct::size(width) as usize;
    let row = [direct::row(expected, width)];
    let start = direct::down(&row, p as usize) as u64;
    let end = direct::up(&row, n, p as usize) as u64;
    run.from == start && direct::is_next(run.to, end)
}

// Wrong expectations. The words 11 to 14 fit the rule, and 10 to 13 the other, so that the run at 0 ends elsewhere, and the one
// at 15 starts elsewhere.
fn known() -> Tally {
    let fits = rule(3, 0, 5, 3);
    let other = rule(3, 0, 6, 3);
    [
        wrong(Look::Meets, fits, negated(fits), 0),
        wrong(Look::Holds, fits, negated(fits), 0),
        wrong(Look::Runs, fits, other, 0),
        wrong(Look::Runs, fits, other, 15),
        paper::known(),
    ]
    .into_iter()
    .sum()
}

fn wrong(look: Look, rule: Rule, expected: Rule, x: u64) -> Tally
    requires { x ≤ 15 }
{
    at_word(look, rule, expected, Width { bits: 4 }, x)
}
