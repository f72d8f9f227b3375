// What is to be answered to a sheet: by a walk over all words, or by the paper; and sheets that are drawn.
#![tactic(auto)]

pub mod drawn;
pub mod expected;
pub mod trial_bits;
pub mod trial_editions;
pub mod trial_wide;
pub mod walk;
