// The calls on a slate, but adding and asking. Each works on the rows and marks that are lent and hands the head back. Each but an opening
// first looks whether there is a sheet at all, which the head says; then the first row of the table that applies gives the number, and a
// refusal leaves everything as it was.
mod marking;
mod opening;

pub use crate::slate::stepping::{back, forward};
pub use marking::mark;
pub use opening::open;
