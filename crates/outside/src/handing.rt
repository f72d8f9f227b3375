// What a caller outside hands in, as numbers: rules, four numbers each, and the numbers of editions.

ghost use Rattle.std.specs.Prelude.{◌≡◌, MatchResult};
ghost use Rattle.outside.specs.handing.Handed.{edition_of, opening_of, rule_in, weigh_number};

use page::Opening;
use rule::Rule;
use word::{Edition, Width};

/// Form, sense and two constants are a rule.
pub const NUMBERS: usize = 4;

/// The rule that four numbers are.
pub fn rule_in(numbers: &[u64; NUMBERS]) -> Rule
    ensures { result ≡ rule_in numbers.now }
{
    Rule {
        form: numbers[0],
        sense: numbers[1],
        c1: numbers[2],
        c2: numbers[3],
    }
}

/// The edition of a number.
pub fn edition_of(number: u64) -> Edition
    ensures { result ≡ edition_of number }
{
    match number {
        0 => Edition::Old,
        _ => Edition::New,
    }
}

/// What a caller opens a sheet with: a width, and the number of an edition.
pub fn opening(width: u64, edition: u64) -> Opening
    ensures { result ≡ opening_of width edition }
{
    Opening {
        width,
        edition: edition_of(edition),
    }
}

/// The width at which a word is held to a rule, or the number with which they are refused.
pub fn weighable(width: u64, rule: Rule, word: u64) -> Result<Width, u64>
    ensures { MatchResult result (λ w. (w.bits ≡ width) × (weigh_number width rule word ≡ 0)) (λ n. (n ≡ weigh_number width rule word) × (n ≡ 0 → ⊥)) }
{
    if width < 1 || Width::LIMIT < width {
        return Err(2);
    }
    let bits = Width { bits: width };
    let number = rule::accept::refusal_of(rule, bits);
    if number != 0 {
        return Err(number);
    }
    if bits.top() < word { Err(5) } else { Ok(bits) }
}
