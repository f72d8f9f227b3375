// What the trials of calls share: sheets to try them on, records that are none, and what is looked at in an answer.
#![tactic(auto)]

pub mod answers;
pub mod records;
pub mod sheets;
pub mod trial_draws;
pub mod trial_lists;
pub mod trial_pages;
