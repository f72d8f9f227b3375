// A number as answers have it: in decimal, and in hexadecimal in parentheses.

ghost use Rattle.std.specs.Prelude.{◌+◌, ◌≤◌, length};
ghost use Rattle.digits.specs.phrase.Phrase.{Put};
ghost use Rattle.digits.specs.figure.Figure.{NUMBER, number_text};

use crate::numeral::put_digits;
use crate::phrase::put_text;

// The most bytes of a number in both ways.
pub const NUMBER: usize = 41;

// A number, as answers have it: `11 (0xb)`.
pub fn put_number(out: &mut [u8], at: usize, x: u64) -> usize
    requires { at + NUMBER ≤ length out.old }
    ensures { Put out.old at (number_text x) out.new result × (result ≤ at + NUMBER) }
{
    let decimal = put_digits(out, at, 10, x);
    let opened = put_text(out, decimal, b" (0x");
    let hexadecimal = put_digits(out, opened, 16, x);
    put_text(out, hexadecimal, b")")
}
