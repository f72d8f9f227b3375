// A record written down as the numbers that a caller keeps: its head, its marks and its rules, each put in its place and the others left as they are.

ghost use Rattle.std.specs.Prelude.{◌≡◌, ◌++◌, drop, length, take};
ghost use Rattle.page.specs.Page.{MARKS};
ghost use Rattle.keeping.specs.kept_numbers.Numbers.{HEAD, NUMBERS, RULES_AT, flat, numbers_of};

use crate::kept_head::head_of;
use crate::kept_numbers::{HEAD, NUMBERS, RULES_AT};
use rule::Rule;
use sheet::Sheet;

/// The numbers of a record.
pub fn written(sheet: Sheet) -> [u64; NUMBERS]
    ensures { result ≡ numbers_of sheet }
{
    let mut numbers = [0; NUMBERS];
    numbers[..HEAD].copy_from_slice(&head_of(sheet));
    put_marks(&mut numbers, sheet.marks);
    put_rules(&mut numbers, sheet.rules);
    numbers
}

fn put_marks(numbers: &mut [u64; NUMBERS], marks: [usize; Sheet::MARKS])
    ensures numbers_after { numbers.new ≡ take HEAD numbers.old ++ (marks ++ drop RULES_AT numbers.old) }
    ensures marks_len { length marks ≡ MARKS }
{
    for (place, mark) in marks.iter().enumerate() {
        numbers[HEAD + place] = *mark as u64;
    }
}

fn put_rules(numbers: &mut [u64; NUMBERS], rules: [Rule; Rule::LIMIT])
    ensures { numbers.new ≡ take RULES_AT numbers.old ++ flat rules }
{
    for (place, rule) in rules.iter().enumerate() {
        let at = RULES_AT + outside::handing::NUMBERS * place;
        numbers[at] = rule.form;
        numbers[at + 1] = rule.sense;
        numbers[at + 2] = rule.c1;
        numbers[at + 3] = rule.c2;
    }
}
