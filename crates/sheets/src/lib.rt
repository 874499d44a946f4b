// Sheets of index prices, filled by entries: price sources for one day each.
#![tactic(auto)]

mod day_sheet;
pub mod hour_sheet;
mod hours;
pub mod quarter_sheet;
mod real_time;

pub use day_sheet::DaySheet;
pub use real_time::RealTime;
