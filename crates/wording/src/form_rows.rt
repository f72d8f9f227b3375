// The rows of the forms as people write them, and those with two numbers, written.

ghost use Rattle.std.specs.Prelude.{◌+◌, ◌≤◌, length};
ghost use Rattle.digits.specs.phrase.Phrase.{Put};
ghost use Rattle.wording.specs.form_rows.route.Pairs.{pair_text};

use digits::phrase::{Two, put_two};
use rule::Rule;

/// Writes the row of a rule's form, where it has two numbers, from a place on, and says where it ends; for any other form it writes nothing.
pub fn put_pair(out: &mut [u8], at: usize, rule: Rule) -> usize
    requires { at + length (pair_text rule) ≤ length out.old }
    ensures { Put out.old at (pair_text rule) out.new result }
{
    match rule.form {
        1 => put_two(out, at, b"x + ", b" <= x + ", Two(rule.c1, rule.c2)),
        2 => put_two(out, at, b"", b" <= x + ", Two(rule.c1, rule.c2)),
        3 => put_two(out, at, b"x + ", b" <= ", Two(rule.c1, rule.c2)),
        7 => put_two(out, at, b"x & ", b" = ", Two(rule.c1, rule.c2)),
        8 => put_two(out, at, b"settled since ", b" for ", Two(rule.c1, rule.c2)),
        _ => at,
    }
}
