// A rule as people write it, so that it reads back as that rule, and a number in decimal and hexadecimal.
#![tactic(auto)]

pub mod echo;
pub mod form_rows;
pub mod forms;
pub mod signs;

ghost use Rattle.std.specs.Prelude.{◌+◌, ◌≤◌, length};
ghost use Rattle.word.specs.Word.{IsWidth};
ghost use Rattle.digits.specs.phrase.Phrase.{Put};
ghost use Rattle.wording.specs.Wording.{ROOM, rule_text};

use crate::forms::put_form;
use crate::signs::{put_at_least, put_at_most, put_before};
pub use digits::figure::{NUMBER, put_number};
use rule::Rule;
use word::Width;

/// The most bytes of a rule: `not settled since N for N`, where a number has twenty digits.
pub const ROOM: usize = 63;

/// Writes a rule from a place on, and says where it ends.
pub fn put_rule(out: &mut [u8], at: usize, rule: Rule, width: Width) -> usize
    requires width { IsWidth width.bits }
    requires at_in_bounds { at + ROOM ≤ length out.old }
    ensures { Put out.old at (rule_text width.bits rule) out.new result × (result ≤ at + ROOM) }
{
    let sense = rule.sense;
    if rule.form == 2 && rule.c2 == 0 {
        return put_at_least(out, at, sense, rule.c1);
    }
    if rule.form == 3 && rule.c1 == 0 {
        return put_at_most(out, at, sense, rule.c2);
    }
    let from = put_before(out, at, sense);
    put_form(out, from, rule, width)
}
