//! trial_chains
#![tactic(auto)]

pub mod trial_checks;
pub mod trial_links;
