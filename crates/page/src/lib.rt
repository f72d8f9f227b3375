// The clerk's page: what stands on it, when each call is refused, and what the clerk then writes. These are definitions and laws,
// without the record that the desk keeps; the code has of them the limit on marks, and what an opening is given.
#![tactic(auto)]

use word::Edition;

// The most marks that may be in force.
pub const MARKS: usize = 32;

// What an opening is given: a width, and the edition of its frame.
#[derive(Clone, Copy, PartialEq, Eq)]
pub struct Opening {
    pub width: u64,
    pub edition: Edition,
}
