// Lines of text: what a line says, read and written.
#![tactic(auto)]

pub mod entry;
pub mod laws;
pub mod reading;
mod row;
mod shape;
mod value;
pub mod writing;
