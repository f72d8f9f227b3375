// What a call of std answers, as the system's calls do.
ghost use Rattle.std.specs.Prelude.{◌≡◌, min, pos, negsuc, IfOk, IfErr};
ghost use Rattle.std.specs.IoError.{raw_os_error};
ghost use Rattle.coming.specs.Calls.{MOST_BYTES, number_of};

use std::io;

// An input or output error: for an error of std's that has no number.
const EIO: i32 = 5;

// How many bytes a read or a write moved, and 0; or -1, and errno.
#[derive(Clone, Copy)]
pub struct Answer {
    pub got: isize,
    pub error: i32,
}

impl Answer {
    pub fn of(call: io::Result<usize>) -> Answer
        ensures moved { IfOk call (λ n. result.got ≡ pos (min n MOST_BYTES)) }
        ensures no_error { IfOk call (λ n. result.error ≡ pos 0) }
        ensures failed { IfErr call (λ e. result.got ≡ negsuc 0) }
        ensures error { IfErr call (λ e. result.error ≡ number_of (raw_os_error e)) }
    {
        match call {
            Ok(n) => Answer {
                got: n.min(isize::MAX as usize) as isize,
                error: 0,
            },
            Err(e) => Answer {
                got: -1,
                error: e.raw_os_error().unwrap_or(EIO),
            },
        }
    }
}
