// The lines of an input, handed on one after another, each as soon as it is complete.

use arrayvec::ArrayVec;
use coming::Answer;
use line::scan::Name;
use std::io::{Eprint, Error, ErrorKind, Read, Result, Write};

/// What takes the lines of an input.
pub trait Listener {
    /// Whether more is to be read.
    fn listens(&self) -> bool;

    /// Takes a line, without its byte 10.
    fn take<P: Print + Eprint>(&mut self, rt: &P, text: &[u8]);
}

// What is held of a line: one byte more than a line may have, so that one that is too long is seen to be, and memory does not grow with it.
const HELD: usize = line::LIMIT + 1;

type Held = ArrayVec<u8, HELD>;

/// Hands on the lines of an input, until it ends or the listener has heard enough. The last line may lack its byte 10. A read that is
/// interrupted is tried again.
pub fn listen<P: Print + Eprint, R: Read + Drop, L: Listener>(
    rt: &P,
    mut input: R,
    listener: &mut L,
) -> Result<()> {
    let mut held = Held::new();
    // No run uses up the turns, since a loop has to end.
    for _ in 0..u64::MAX {
        if !listener.listens() {
            return Ok(());
        }
        let mut part = io::large_buffer();
        match input.read(&mut part) {
            Ok(0) => {
                if !held.is_empty() {
                    listener.take(rt, &held);
                }
                return Ok(());
            }
            Ok(n) => hear(rt, &part[..n], &mut held, listener),
            Err(error) => {
                if error.kind() != ErrorKind::Interrupted {
                    return Err(error);
                }
            }
        }
    }
    Ok(())
}

// The lines of a part. Of a line what is past the most is dropped.
fn hear<P: Print + Eprint, L: Listener>(rt: &P, part: &[u8], held: &mut Held, listener: &mut L) {
    for piece in part.split_inclusive(|byte| *byte == b'\n') {
        match piece.split_last() {
            Some((b'\n', text)) => {
                let _ = held.write(text);
                listener.take(rt, held);
                held.clear();
            }
            _ => {
                let _ = held.write(piece);
            }
        }
    }
}

/// The part of a line where a name stands.
pub fn name_in(name: Name, text: &[u8]) -> &[u8] {
    text.get(name.from..name.to).unwrap_or(b"")
}

/// Says on standard error what failed, and why, in the system's words.
pub fn say_failed(what: &[u8], error: Error) {
    coming::fail(what, Answer::of(Err(error)).error);
}
