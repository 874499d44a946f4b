// A sheet on which each hour's real-time price is entered as one figure.
ghost use Rattle.sheets.specs.Sheets.{price_answer};

use crate::day_sheet::DaySheet;
use crate::real_time::RealTime;
use tariff::figures::{Price, enter_or_miss};
use tariff::refusal::Refusal;

// The real-time price is one figure of the entry, at position 3.
pub type HourSheet = DaySheet<Option<i64>>;

impl RealTime for Option<i64> {
    const FACTOR: u64 = 4;

    ghost FACTOR = { 4 };

    ghost answer = { price_answer };

    ghost price = { λ price. price };

    fn settle(self) -> Result<Option<Price>, Refusal> {
        enter_or_miss(self, 3)
    }
}
