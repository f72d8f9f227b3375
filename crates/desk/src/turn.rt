// A turn of the desk: what a read came to, and what was made of the part that it brought.

ghost use Rattle.std.specs.Prelude.{◌≡◌};
ghost use Rattle.coming.specs.Calls.{goes_on};

use crate::feed::State;
use coming::Came;

// The state after a turn, what its read came to, and whether the answers were taken.
#[derive(Clone, Copy)]
pub struct Turn {
    pub state: State,
    pub came: Came,
    pub taken: bool,
}

impl Turn {
    // Whether another turn follows, after so many.
    pub fn goes_on(self, turns: u64) -> bool
        ensures { result ≡ goes_on self.came self.taken turns }
    {
        let turn = self;
        turn.came.goes_on(turn.taken, turns)
    }
}
