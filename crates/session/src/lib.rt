// A session: lines of text, applied to a sheet of prices and a book, each answered.
#![tactic(auto)]

pub mod laws;
pub mod reply;
pub mod serving;
pub mod session;
