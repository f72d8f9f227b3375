// The desk's answers to a sheet, by calls in each edition that has its width, and what is counted of them.

pub mod asked;
pub mod counts;
pub mod known;
