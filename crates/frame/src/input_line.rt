// A line of the input: its bytes up to the next byte 10, found eight at a step.

ghost use Rattle.std.specs.Prelude.{◌≡◌, ◌+◌, ◌≤◌, leb, drop, length};
ghost use Rattle.frame.specs.input_line.Lines.{line_of};

use crate::fields::Field;

// How many bytes are looked at together.
const EIGHT: usize = 8;

// The line that starts at a place, up to the next byte 10 or the end: a part of the caller's own bytes.
pub fn line_at(bytes: &[u8], start: usize) -> &[u8]
    requires { start ≤ length bytes.now }
    ensures { result.now ≡ line_of (drop start bytes.now) }
{
    let end = line_end(bytes, start);
    &bytes[start..end]
}

// The place of the next byte 10, or the end: eight bytes at a step while the line goes on, and then byte by byte.
fn line_end(bytes: &[u8], start: usize) -> usize
    requires { start ≤ length bytes.now }
    ensures { (result ≡ start + length (line_of (drop start bytes.now))) × (result ≤ length bytes.now) }
{
    let mut i = start;
    while EIGHT <= bytes.len() - i {
        if !goes_on(bytes, i) {
            break;
        }
        i += EIGHT;
    }
    end_near(bytes, i)
}

// Whether none of eight bytes is a byte 10. With no branch among them they are looked at together.
fn goes_on(bytes: &[u8], at: usize) -> bool
    requires { at + 8 ≤ length bytes.now }
    ensures { result ≡ leb 8 (length (line_of (drop at bytes.now))) }
{
    let a = bytes[at] != Field::NEWLINE;
    let b = bytes[at + 1] != Field::NEWLINE;
    let c = bytes[at + 2] != Field::NEWLINE;
    let d = bytes[at + 3] != Field::NEWLINE;
    let e = bytes[at + 4] != Field::NEWLINE;
    let f = bytes[at + 5] != Field::NEWLINE;
    let g = bytes[at + 6] != Field::NEWLINE;
    let h = bytes[at + 7] != Field::NEWLINE;
    a & (b & (c & (d & (e & (f & (g & h))))))
}

// The same place, byte by byte.
#[tactic(auto, using(crate::proofs::input_line::SearchEndNear::wanted), unfolding(crate::specs::input_line::Lines::line_of))]
fn end_near(bytes: &[u8], start: usize) -> usize
    requires { start ≤ length bytes.now }
    ensures { (result ≡ start + length (line_of (drop start bytes.now))) × (result ≤ length bytes.now) }
{
    for i in start..bytes.len() {
        if bytes[i] == Field::NEWLINE {
            return i;
        }
    }
    bytes.len()
}
