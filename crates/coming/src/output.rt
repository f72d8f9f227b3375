// Answers written to standard output.
ghost use Rattle.coming.specs.Calls.{Sends};

use crate::{Answer, Came, EPIPE, fail};
use std::io::Print;

// How many of the bytes were taken, in how many writes, and what the last write came to.
#[derive(Clone, Copy)]
pub struct Sent {
    pub count: usize,
    pub writes: u64,
    pub came: Came,
}

// Writes the bytes, each write from where the last one stopped.
#[tactic(auto, using(crate::proofs::SearchOutputSend::wanted))]
pub fn send(rt: &impl Print, bytes: &[u8]) -> Sent
    ensures { Sends bytes.now result }
{
    let mut count = 0;
    let mut writes = 0;
    let mut came = Came::Bytes;
    while came.goes_on(count < bytes.len(), writes) {
        let rest = &bytes[count..];
        let answer = Answer::of(rt.write_some(rest));
        came = Came::of(answer.got, answer.error);
        say_untaken(came, answer.error);
        count += io::count(answer.got, rest);
        writes += 1;
    }
    Sent {
        count,
        writes,
        came,
    }
}

// Says on standard error that a write failed. A closed pipe is no failure: nobody takes the answers.
fn say_untaken(came: Came, error: i32) {
    if came.goes_on(true, 0) {
        return;
    }
    if error != EPIPE {
        fail(b"desk: standard output", error);
    }
}
