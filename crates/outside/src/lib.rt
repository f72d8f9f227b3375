//! outside
#![tactic(auto)]

pub mod handing;
pub mod list_made;
pub mod making;
pub mod net_joins;
pub mod net_words;
pub mod on_counts;
pub mod on_listings;
pub mod on_lists;
pub mod on_nets;
pub mod on_rules;
pub mod on_words;
pub mod over;
pub mod vetting;
