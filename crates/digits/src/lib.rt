//! digits
#![tactic(auto)]

pub mod figure;
pub mod hexadecimal;
pub mod numeral;
pub mod phrase;
