// The worked examples, as one theorem about the definitions, and one of them as calls of the code.
#![tactic(auto)]

ghost use Rattle.std.specs.Prelude.{◌≡◌, pos, Ok};
ghost use Rattle.tariff.specs.Prices.{prices};
ghost use Rattle.examples.specs.Examples.{Examples};

use sheets::hour_sheet::HourSheet;
use tariff::blocks::DayKind;
use tariff::prices::{HourPrices, Terms};
use tariff::refusal::Refusal;
use tariff::source::price_hour;

// The worked examples of prices, division, allotment, settlement and charges follow from the definitions, and so does a
// session from its calls to what is due.
pub fn examples_hold()
    ensures { Examples }
{}

// The prices of hour 8 of a workday, in cents, by an hour sheet that two entries filled. It is never refused.
pub fn priced() -> Result<HourPrices, Refusal>
    ensures { result ≡ Ok (prices (pos 6600) (pos 4000) (pos 2600)) }
{
    let mut sheet = HourSheet::new();
    sheet.enter_day(1, Some(5_000), Some(3_000))?;
    sheet.enter_hours(7, 22, Some(4_000), Some(12_000))?;
    price_hour(&sheet, Terms::initial(), DayKind::Workday, 1, 8)
}
