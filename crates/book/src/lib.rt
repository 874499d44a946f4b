// The book of a pool: it takes the calls of its companies, allots, and settles each day at its close.
#![tactic(auto)]

mod amounts;
mod blank;
mod block_hours;
pub mod book;
pub mod call;
mod cut_table;
mod division;
pub mod entry;
mod figures;
mod hours;
pub mod laws;
mod laying;
pub mod party_year;
pub mod payment;
mod places;
pub mod playing;
mod pool;
mod priced_day;
mod records;
pub mod statement;
mod sums;
mod supply;
mod tables;
pub mod two_rules;
mod widths;
