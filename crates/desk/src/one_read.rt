// One read of standard input, and what it brought.

ghost use Rattle.desk.specs.one_read.Listened.{Listened};

use coming::{Answer, Hearing};
use std::io::Read;

// Reads into the lent buffer. Says what the read came to, and how many bytes it brought.
pub fn listen(rt: &HostRuntime, input: &mut [u8]) -> Hearing
    ensures { Listened input.new result }
{
    let answer = Answer::of(rt.stdin().read(input));
    coming::hear(answer.got, answer.error, input)
}
