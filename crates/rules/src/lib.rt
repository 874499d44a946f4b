// Division rules: largest remainder and running total.
#![tactic(auto)]

mod claims;
pub mod largest;
pub mod laws;
pub mod running;
