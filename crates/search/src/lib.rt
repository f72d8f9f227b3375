//! search
#![tactic(auto)]

pub mod laying;
pub mod leap;
pub mod noting;
pub mod order;
pub mod rows;
pub mod section;
pub mod sorting;
pub mod sweep;
pub mod verdict;
