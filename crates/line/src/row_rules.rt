// The rules that rows of the grammar are, and the words that signed numbers are.

ghost use Rattle.std.specs.Prelude.{◌≡◌};
ghost use Rattle.word.specs.Word.{IsWidth};
ghost use Rattle.line.specs.row_rules.Rules.{rule_at, rule_of, signed_word};
ghost use Rattle.rule.specs.Meaning.{rule};

use rule::Rule;
use word::Width;

// The rule of a row with two numbers, the one or the other way round after `not`.
pub fn rule_of(row: usize, negated: bool, n: u64, m: u64) -> Rule
    ensures { result ≡ rule_of row negated n m }
{
    let plain = rule_at(row, n, m);
    if !negated {
        return plain;
    }
    if plain.sense == 0 {
        return rule(plain.form, 1, plain.c1, plain.c2);
    }
    rule(plain.form, 0, plain.c1, plain.c2)
}

// The rule of a row.
#[tactic(auto, using(crate::proofs::row_rules::SearchRuleAt::wanted), unfolding(crate::specs::row_rules::Rules::rule_at))]
fn rule_at(row: usize, n: u64, m: u64) -> Rule
    ensures { result ≡ rule_at row n m }
{
    match row {
        0 => rule(3, 0, 0, m),
        1 => rule(2, 1, m, 0),
        2 => rule(2, 0, m, 0),
        3 => rule(3, 1, 0, m),
        4 => rule(6, 0, m, 0),
        5 => rule(3, 0, n, m),
        6 => rule(1, 0, n, m),
        7 => rule(2, 0, n, m),
        8 => rule(7, 0, n, m),
        9 => rule(4, 0, m, 0),
        10 => rule(4, 0, m, 0),
        11 => rule(5, 0, m, 0),
        12 => rule(5, 0, m, 0),
        13 => rule(8, 0, n, m),
        _ => rule(0, 0, 0, 0),
    }
}

fn rule(form: u64, sense: u64, c1: u64, c2: u64) -> Rule
    ensures { result ≡ rule form sense c1 c2 }
{
    Rule {
        form,
        sense,
        c1,
        c2,
    }
}

// The word whose signed reading is a number, where a word of the width has it.
#[tactic(auto, using(crate::proofs::row_rules::SearchSignedWord::wanted), unfolding(crate::specs::row_rules::Rules::signed_word))]
pub fn signed_word(width: Width, minus: bool, n: u64) -> Option<u64>
    requires { IsWidth width.bits }
    ensures { result ≡ signed_word width.bits minus n }
{
    let half = width.half();
    if half < n {
        return None;
    }
    if minus {
        return Some(width.sub(0, n));
    }
    if half == n {
        return None;
    }
    Some(n)
}
