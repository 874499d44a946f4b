// Pages: one entry for each seller and buyer of twelve, written into a slice that the caller lends.
#![tactic(auto)]

pub mod laws;
mod numbers;
pub mod page;
