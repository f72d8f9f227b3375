// What stands before a rule, and forms 2 and 3 where nothing is added to x, with a sign for each sense.

ghost use Rattle.std.specs.Prelude.{◌+◌, ◌≤◌, length};
ghost use Rattle.digits.specs.phrase.Phrase.{Put};
ghost use Rattle.wording.specs.signs.Signs.{at_least, at_most, before};

use digits::phrase::{put_one, put_text};

/// Form 2 with nothing added to x.
pub fn put_at_least(out: &mut [u8], at: usize, sense: u64, n: u64) -> usize
    requires { at + length (at_least sense n) ≤ length out.old }
    ensures { Put out.old at (at_least sense n) out.new result }
{
    if sense == 0 {
        return put_one(out, at, b"x >= ", n);
    }
    put_one(out, at, b"x < ", n)
}

/// Form 3 with nothing added to x.
pub fn put_at_most(out: &mut [u8], at: usize, sense: u64, n: u64) -> usize
    requires { at + length (at_most sense n) ≤ length out.old }
    ensures { Put out.old at (at_most sense n) out.new result }
{
    if sense == 0 {
        return put_one(out, at, b"x <= ", n);
    }
    put_one(out, at, b"x > ", n)
}

/// What stands before a rule of a sense.
pub fn put_before(out: &mut [u8], at: usize, sense: u64) -> usize
    requires { at + length (before sense) ≤ length out.old }
    ensures { Put out.old at (before sense) out.new result }
{
    if sense == 0 {
        return at;
    }
    put_text(out, at, b"not ")
}
