// The row of a form, written with its numbers.

ghost use Rattle.std.specs.Prelude.{◌+◌, ◌≤◌, length};
ghost use Rattle.word.specs.Word.{IsWidth};
ghost use Rattle.digits.specs.phrase.Phrase.{Put};
ghost use Rattle.wording.specs.form_rows.Forms.{form_text};

use crate::form_rows::put_pair;
use digits::phrase::{put_one, put_signed, put_text};
use rule::Rule;
use word::Width;

/// Writes the row of a rule's form, as written, from a place on, and says where it ends; a number that is no form has no row.
pub fn put_form(out: &mut [u8], at: usize, rule: Rule, width: Width) -> usize
    requires width { IsWidth width.bits }
    requires rule_in_bounds { at + length (form_text width.bits rule) ≤ length out.old }
    ensures { Put out.old at (form_text width.bits rule) out.new result }
{
    match rule.form {
        4 => {
            let from = put_text(out, at, b"signed x <= ");
            put_signed(out, from, rule.c1, width)
        }
        5 => {
            let from = put_signed(out, at, rule.c1, width);
            put_text(out, from, b" <= signed x")
        }
        6 => put_one(out, at, b"x = ", rule.c1),
        _ => put_pair(out, at, rule),
    }
}
