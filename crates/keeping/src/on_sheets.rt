// The calls that change a sheet that a caller keeps: those that are handed something more are here. An add and a gate read the numbers
// anew, test them for 17 as the call beneath does, and write them down again only where they are accepted: a refused call leaves every
// number as it was.

ghost use Rattle.page.specs.Calls.{add, set_gate};
ghost use Rattle.outside.specs.handing.Handed.{edition_of, opening_of, rule_in};
ghost use Rattle.outside.specs.on_words.Gates.{gate_of};
ghost use Rattle.keeping.specs.kept_changes.Changed.{Changed, Opened};

pub use crate::bare_calls::{back, blank, forward, mark};
use crate::{keep, read};
use outside::handing::{NUMBERS, edition_of, opening, rule_in};
use outside::on_words::gate_of;
use sheet::Sheet;

/// Opens a sheet. The old numbers are not read.
pub fn open(numbers: &mut [u64; crate::NUMBERS], width: u64, edition: u64) -> u64
    ensures { Opened (opening_of width edition) numbers.old numbers.new result }
{
    keep(numbers, Sheet::blank().open(opening(width, edition)))
}

/// Adds a rule, of an edition.
pub fn add(numbers: &mut [u64; crate::NUMBERS], edition: u64, rule: &[u64; NUMBERS]) -> u64
    ensures { Changed (add (edition_of edition) (rule_in rule.now)) numbers.old numbers.new result }
{
    let answer = read(*numbers).add(edition_of(edition), rule_in(rule));
    keep(numbers, answer)
}

/// Sets a gate, from the bits of its limits.
pub fn gate(numbers: &mut [u64; crate::NUMBERS], kind: u64, low: u32, high: u32) -> u64
    ensures { Changed (set_gate (gate_of kind low high)) numbers.old numbers.new result }
{
    let answer = gating::set(read(*numbers), gate_of(kind, low, high));
    keep(numbers, answer)
}
