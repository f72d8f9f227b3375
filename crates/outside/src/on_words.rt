// Gates and joins, in numbers.

mod gates;
mod joins;

pub use gates::{gate_of, gate_rules, watts};
pub use joins::{interval_in, join, op_of, row_of};
