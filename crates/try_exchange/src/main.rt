// Tries the paper's whole exchange, as calls, in both editions: cases 2 and 8.
//
// The counts. exchange: in each edition 9 lines, the 6 numbers of two links, and the numbers after them as one. known has wrong
// expectations, 1 + 6 + 1.
#![tactic(auto)]

ghost use Rattle.std.specs.Prelude.{◌≤◌, ◌<◌};
ghost use Rattle.trial.specs.trial_direct.Trial.{ROWS};

use page::Opening;
use rule::Rule;
use sheet::Sheet;
use trial::trial_direct::cases;
use trial::trial_direct::cases::Link;
use trial::trial_direct::direct::UNTOUCHED;
use trial::trial_tally::Tally;
use trial_calls::answers::{accepted, kept, refused, replied, untouched};
use trial_calls::sheets::{added, case2, gone_back, marked, opened, opened_in};
use word::Edition;

// What asking wants of two rules.
const LENT: usize = 3 * (4 * 2 + 1);

fn main() {
    all(Edition::Old).plus(all(Edition::New)).print(b"exchange");
    known().print(b"known");
}

fn all(edition: Edition) -> Tally {
    let none = opened_in(4, edition);
    let sheet = added(none, case2());
    let two = added(marked(sheet), case8());
    let after = gone_back(two);
    Tally::one(accepted(Sheet::blank().open(Opening { width: 4, edition })))
        .plus(Tally::one(accepted(none.add(edition, case2()))))
        .plus(asked(sheet, cases::CASE2))
        .plus(Tally::one(accepted(sheet.mark())))
        .plus(Tally::one(accepted(marked(sheet).add(edition, case8()))))
        .plus(asked(two, cases::CASE8))
        .plus(Tally::one(accepted(two.back())))
        .plus(Tally::one(refused(after.back(), 8, after)))
        .plus(asked(after, cases::CASE2))
}

// The second rule of the paper's case 8, whose first is case 2's.
fn case8() -> Rule {
    let case = cases::at(cases::CASE8);
    cases::rule_at(case.rules, 1)
}

// What the paper says of a case, each number of its links, and where it has links the numbers after them as one.
fn asked(sheet: Sheet, row: usize) -> Tally
    requires { row < ROWS }
{
    let case = cases::at(row);
    let links = case.links.len();
    let mut out = [UNTOUCHED; LENT];
    let reply = sheet.ask(&mut out);
    let kept = kept(case.verdict, case.smallest, case.largest);
    let said = Tally::one(replied(reply, 0, kept, links));
    if links == 0 {
        return said;
    }
    said.plus(same_links(&out, case.links))
        .plus(Tally::one(untouched(&out, links.saturating_mul(3))))
}

fn same_links(out: &[u64; LENT], links: &[Link]) -> Tally {
    let numbers = links.iter().flat_map(|link| link.numbers());
    out.iter()
        .zip(numbers)
        .map(|(number, expected)| Tally::one(*number == expected))
        .sum()
}

// Wrong expectations: case 2 answered as case 3, no links where case 8 has two, and a number that is written after the last.
fn known() -> Tally {
    let case = cases::at(cases::CASE8);
    asked(added(opened(4), case2()), cases::CASE2 + 1)
        .plus(same_links(&[UNTOUCHED; LENT], case.links))
        .plus(Tally::one(untouched(&[0; LENT], LENT - 1)))
}
