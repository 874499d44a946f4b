// Figures and fields of a line of text.
#![tactic(auto)]

pub mod fields;
pub mod figures;
pub mod laws;
pub mod pieces;
