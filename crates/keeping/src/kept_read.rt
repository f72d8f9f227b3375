// The rules and the marks among the numbers of a sheet that a caller keeps, read.

ghost use Rattle.std.specs.Prelude.{◌≡◌, length};
ghost use Rattle.keeping.specs.kept_numbers.Numbers.{NUMBERS};
ghost use Rattle.keeping.specs.kept_numbers.route.Reading.{marks_in, rules_in};

use crate::kept_numbers::{HEAD, NUMBERS, RULES_AT};
use outside::handing::rule_in;
use rule::Rule;
use sheet::Sheet;

/// The rules, four numbers each.
pub fn rules_in(numbers: &[u64; NUMBERS]) -> [Rule; Rule::LIMIT]
    ensures { result ≡ rules_in numbers.now }
{
    let (rows, _) = numbers[RULES_AT..].as_chunks::<4>();
    let mut rules = [Rule::NONE; Rule::LIMIT];
    for (place, row) in rows.iter().enumerate() {
        rules[place] = rule_in(row);
    }
    rules
}

/// The marks, which lie before the rules.
pub fn marks_in(numbers: &[u64; NUMBERS]) -> [usize; Sheet::MARKS]
    ensures { result ≡ marks_in numbers.now }
{
    let mut marks: [usize; Sheet::MARKS] = [0; Sheet::MARKS];
    for (place, number) in numbers[HEAD..RULES_AT].iter().enumerate() {
        marks[place] = *number as usize;
    }
    marks
}
