//! trial_joins
#![tactic(auto)]

pub mod trial_nets;
pub mod trial_spans;
