// What a read brought.
ghost use Rattle.coming.specs.Calls.{Heard};

use crate::{Came, fail};

// What a read came to, and how many bytes it brought.
#[derive(Clone, Copy)]
pub struct Hearing {
    pub came: Came,
    pub count: usize,
}

// What a read's answer comes to, and how many bytes of the buffer it brought: none, where it failed.
pub fn hear(got: isize, error: i32, input: &[u8]) -> Hearing
    ensures { Heard got error input.now result }
{
    let came = Came::of(got, error);
    say_unread(came, error);
    Hearing {
        came,
        count: io::count(got, input),
    }
}

// Says on standard error that a read failed.
fn say_unread(came: Came, error: i32) {
    if let Came::Failed = came {
        fail(b"desk: standard input", error);
    }
}
