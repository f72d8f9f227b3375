// Rules in lent rows, from the first row to the last: laid out from a record, tested, drawn, cleared, and packed again.

mod banding;
mod packing;
mod testing;

pub use banding::{bits_of, draw};
pub use packing::{clear, lay_out, pack};
pub use testing::{all_acceptable, none_from};
