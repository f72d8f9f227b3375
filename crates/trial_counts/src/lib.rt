// What the programs that try the count and the listing share: a count by plain numbers, listings in pieces, refusals, and what was
// compared.
#![tactic(auto)]

pub mod pieces;
pub mod refused;
pub mod runs;
pub mod seen;
pub mod total;
