// What a call to the system came to, and whether to go on after it; what a read brought, and answers written.
#![tactic(auto)]

ghost use Rattle.std.specs.Prelude.{◌≡◌};
ghost use Rattle.coming.specs.Calls.{came_to, goes_on};

mod answered;
mod failing;
mod hearing;
mod output;

pub use answered::Answer;
pub use failing::fail;
pub use hearing::{Hearing, hear};
pub use output::{Sent, send};

// errno where a signal came before a byte was moved.
pub const EINTR: i32 = 4;

// errno where nobody reads a pipe.
pub const EPIPE: i32 = 32;

// What a read or a write came to: it moved bytes, or none; a signal came first, so that it is to be tried again; or it failed.
#[derive(Clone, Copy)]
pub enum Came {
    Bytes,
    Nothing,
    Interrupted,
    Failed,
}

impl Came {
    // From the call's answer, and from errno as the call left it.
    #[tactic(auto, using(crate::proofs::Coming::told))]
    pub fn of(got: isize, error: i32) -> Came
        ensures { result ≡ came_to got error }
    {
        if got > 0 {
            return Came::Bytes;
        }
        if got == 0 {
            return Came::Nothing;
        }
        if error == EINTR {
            return Came::Interrupted;
        }
        Came::Failed
    }

    // Whether another call follows, after so many. It stops at a number that no run uses up, since a loop has to end.
    #[tactic(auto, using(crate::proofs::SearchCameGoesOn::wanted))]
    pub fn goes_on(self, more: bool, calls: u64) -> bool
        ensures { result ≡ goes_on self more calls }
    {
        let came = self;
        if calls == u64::MAX {
            return false;
        }
        match came {
            Came::Bytes => more,
            Came::Nothing => false,
            Came::Interrupted => true,
            Came::Failed => false,
        }
    }
}
