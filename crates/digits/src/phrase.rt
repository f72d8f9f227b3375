// Texts and numbers, written from a place on, one after the other.

ghost use Rattle.std.specs.Prelude.{◌++◌, ◌+◌, ◌≤◌, length};
ghost use Rattle.word.specs.Word.{IsWidth};
ghost use Rattle.digits.specs.phrase.Phrase.{Put, decimal, signedly};

use crate::numeral::put_digits;
use word::Width;

// The numbers of a text that has two, in order.
#[derive(Clone, Copy)]
pub struct Two(pub u64, pub u64);

// A text.
pub fn put_text(out: &mut [u8], at: usize, text: &[u8]) -> usize
    requires { at + length text.now ≤ length out.old }
    ensures { Put out.old at text.now out.new result }
{
    for i in 0..text.len() {
        out[at + i] = text[i];
    }
    at + text.len()
}

// A text and a number.
pub fn put_one(out: &mut [u8], at: usize, lead: &[u8], n: u64) -> usize
    requires { at + length (lead.now ++ decimal n) ≤ length out.old }
    ensures { Put out.old at (lead.now ++ decimal n) out.new result }
{
    let from = put_text(out, at, lead);
    put_digits(out, from, 10, n)
}

// A text, a number, a text and a number.
pub fn put_two(out: &mut [u8], at: usize, lead: &[u8], middle: &[u8], numbers: Two) -> usize
    requires { at + length (lead.now ++ (decimal numbers.0 ++ (middle.now ++ decimal numbers.1))) ≤ length out.old }
    ensures { Put out.old at (lead.now ++ (decimal numbers.0 ++ (middle.now ++ decimal numbers.1))) out.new result }
{
    let from = put_one(out, at, lead, numbers.0);
    put_one(out, from, middle, numbers.1)
}

// A word by its signed reading.
pub fn put_signed(out: &mut [u8], at: usize, a: u64, width: Width) -> usize
    requires width { IsWidth width.bits }
    requires a_in_bounds { at + length (signedly width.bits a) ≤ length out.old }
    ensures { Put out.old at (signedly width.bits a) out.new result }
{
    if a < width.half() {
        return put_digits(out, at, 10, a);
    }
    put_one(out, at, b"-", width.sub(0, a))
}
