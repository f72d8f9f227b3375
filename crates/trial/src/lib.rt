//! trial
#![tactic(auto)]

pub mod trial_direct;
pub mod trial_gates;
pub mod trial_lines;
pub mod trial_tally;
pub mod trial_wheel;
