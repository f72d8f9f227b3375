// The numbers of a sheet that a caller outside keeps: where each lies, what they mean, and what any numbers are read as.

use rule::Rule;
use sheet::Sheet;

// The width, the edition, how many rules and marks are in force, how many rules there are with those that wait, how many stretches wait,
// and the verdict with its two words.
pub const HEAD: usize = 9;

// After them come the marks, and then the rules, four numbers each.
pub const RULES_AT: usize = HEAD + Sheet::MARKS;

pub const NUMBERS: usize = RULES_AT + outside::handing::NUMBERS * Rule::LIMIT;
