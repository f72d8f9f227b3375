// A slate: a sheet laid out in rows and marks that are lent, and a small head by value. Here are its head, and what the calls on
// it share. Nothing here knows the record that it stands for.

mod clearing;
mod heads;
mod numbering;
mod refusing;
pub mod slate_add;
pub mod slate_calls;
pub mod slate_shape;
pub mod slate_test;
pub mod stepping;

pub use crate::marks::set_marks;
pub use clearing::{clear_all, clear_waiting};
pub use numbering::in_force;
use page::Opening;
pub use refusing::{refuses, refuses_rule};
use rule::bits::Fixed;
pub use search::noting::{Note, no_rules, note_at, put_note};
use search::verdict::Kept;

// How many rules and marks are in force, how many rules were given, in force and waiting, and how many stretches wait.
#[derive(Clone, Copy)]
pub struct Counts {
    pub count: usize,
    pub marked: usize,
    pub given: usize,
    pub waiting: usize,
}

// Whether all this is a sheet at all, how it was opened, its counts, what is kept of the rules in force, and the bits that they fix.
#[derive(Clone, Copy)]
pub struct Head {
    pub stands: bool,
    pub opening: Opening,
    pub counts: Counts,
    pub kept: Kept,
    pub fixed: Fixed,
}

// What a call on a slate answers: 0 or the number of a refusal, and the head as it is then.
#[derive(Clone, Copy)]
pub struct Said {
    pub number: u64,
    pub head: Head,
}
