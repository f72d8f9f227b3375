// Reads the lines of its input as statements, and prints what each is: a number for the kind of statement, and its numbers. A line on watts
// prints its digits and their places, a rule its form, its sense and its constants, and a mistake its place and what was expected. Then
// where the name stands. Lines after `word N` are read at that width, those before at 64 bits.
//
// What it prints is foretold by tests/models/try_vet_lines.py, which reads the same lines by docs/VET.md.
#![tactic(auto)]

mod tell;

ghost use Rattle.std.specs.Prelude.{◌≤◌, length};

use tell::tell;
use word::Width;

const STDIN: i32 = 0;

fn main() {
    let mut input = io::large_buffer();
    let n = io::read_full(STDIN, &mut input);
    over_lines(&input[..n]);
}

fn over_lines(input: &[u8]) {
    let mut width: u64 = 64;
    let mut from: usize = 0;
    while from < input.len() {
        let to = line_end(input, from);
        let read = line::read(&input[from..to], Width { bits: width });
        width = tell(read, width);
        from = to + 1;
    }
}

// Where the line that begins at a place ends.
fn line_end(input: &[u8], from: usize) -> usize
    requires { from ≤ length input.now }
    ensures { (from ≤ result) × (result ≤ length input.now) }
{
    let mut i = from;
    while i < input.len() {
        if input[i] == 10 {
            return i;
        }
        i += 1;
    }
    i
}
