// The rules of a gate, joins of words, and nets of them.
ghost use Rattle.std.specs.Prelude.{◌≡◌};
ghost use Rattle.gate.specs.Gate.{turned};
ghost use Rattle.outside.specs.handing.Handed.{number_of};
ghost use Rattle.outside.specs.on_words.Gates.{gate_number, gate_of, gate_rows};
ghost use Rattle.outside.specs.on_words.Joins.{join_in, join_rows};
ghost use Rattle.outside.specs.on_nets.Nets.{Ran};

use gate::Gate;
use outside::handing::NUMBERS;

/// Writes the four rules of a gate.
pub fn branchmetal_gate_rules(
    kind: u64,
    low: u32,
    high: u32,
    rules: &mut [[u64; NUMBERS]; Gate::RULES],
) -> u64
    ensures value { result ≡ gate_number (turned (gate_of kind low high)) }
    ensures rules_after { rules.new ≡ gate_rows (turned (gate_of kind low high)) rules.old }
{
    outside::on_words::gate_rules(kind, low, high, rules)
}

/// Cuts the intervals of three words by what each says of the others.
pub fn branchmetal_join(width: u64, op: u64, words: &mut [[u64; 2]; 3], empty: &mut u64) -> u64
    ensures value { result ≡ (join_in width op words.old).number }
    ensures words_after { words.new ≡ join_rows (join_in width op words.old) }
    ensures empty_after { empty.new ≡ number_of (join_in width op words.old).empty }
{
    outside::on_words::join(width, op, words, empty)
}

/// Cuts the intervals of a net of words by its joins, for as many steps as are paid for.
pub fn branchmetal_net(
    width: u64,
    words: &mut [[u64; 2]],
    joins: &[[u64; 4]],
    pay: u64,
    answer: &mut [u64; 2],
) -> u64
    ensures { Ran width words.old joins.now pay words.new answer.new result }
{
    outside::on_nets::run(width, words, joins, pay, answer)
}
