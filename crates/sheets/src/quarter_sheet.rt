// A sheet on which each hour's real-time price is the average of four quarter-hour results. It is settled as they are
// entered, since they are never asked for again.
ghost use Rattle.std.specs.Prelude.{◌≡◌};
ghost use Rattle.sheets.specs.Quarters.{average, average_of, quarters_answer};
ghost use Rattle.tariff.specs.Tables.{Priced};

use crate::day_sheet::DaySheet;
use crate::real_time::RealTime;
use tariff::figures::{Price, enter_or_miss};
use tariff::refusal::Refusal;

// The four results stand at positions 3 to 6 of the entry.
pub type Quarters = [Option<i64>; 4];

pub type QuarterSheet = DaySheet<Quarters>;

// The average of four results, missing if one of them is: four names, as in `Price::average`.
fn average(
    first: Option<Price>,
    second: Option<Price>,
    third: Option<Price>,
    fourth: Option<Price>,
) -> Option<Price>
    ensures value { result ≡ average first second third fourth }
    ensures limits { Priced result }
{
    Some(Price::average(first?, second?, third?, fourth?))
}

impl RealTime for Quarters {
    const FACTOR: u64 = 7;

    ghost FACTOR = { 7 };

    ghost answer = { quarters_answer };

    ghost price = { average_of };

    fn settle(self) -> Result<Option<Price>, Refusal> {
        let [first, second, third, fourth] = self;
        let first = enter_or_miss(first, 3)?;
        let second = enter_or_miss(second, 4)?;
        let third = enter_or_miss(third, 5)?;
        let fourth = enter_or_miss(fourth, 6)?;
        Ok(average(first, second, third, fourth))
    }
}
