// The prices of a day's hours.
ghost use Rattle.std.specs.Prelude.{◌≡◌, ℕ, ◌≤◌, pos, unsigned_abs, slice_index, slice_index_or};
ghost use Rattle.tariff.specs.Prices.{hour_prices, initial_terms};
ghost use Rattle.book.specs.HourPricing.{by_block, day_prices};
ghost use Rattle.book.specs.PricedDays.{prices_in};

use crate::places::HourNumber;
use crate::priced_day::PricedDay;
use crate::records::{ByHour, HOURS};
use tariff::blocks::{Block, DayKind};
use tariff::prices::{HourPrices, Terms};

// Which of two stands for a block.
pub(crate) fn by_block<T: Copy>(heavy: T, light: T, block: Block) -> T
    ensures { result ≡ by_block heavy light block }
{
    match block {
        Block::Heavy => heavy,
        Block::Light => light,
    }
}

// The prices of an hour by figures within their limits.
fn hour_prices(day_ahead: i64, real_time: i64, factor: u64) -> HourPrices
    requires day_ahead_small { unsigned_abs day_ahead ≤ 1000000 }
    requires real_time_small { unsigned_abs real_time ≤ 1000000 }
    requires factor_small { factor ≤ 100000 }
    ensures { result ≡ hour_prices initial_terms day_ahead real_time factor }
{
    let Ok(prices) = Terms::initial().price(day_ahead, real_time, factor) else {
        unreachable!()
    };
    prices
}

impl PricedDay {
    // The day of these prices, with the prices of each of its hours.
    pub(crate) fn new(
        kind: DayKind,
        heavy: i64,
        light: i64,
        real_time: ByHour<i64>,
        factors: ByHour<u64>,
    ) -> PricedDay
        requires heavy_small { unsigned_abs heavy ≤ 1000000 }
        requires light_small { unsigned_abs light ≤ 1000000 }
        requires real_time_small { (place : ℕ) → unsigned_abs (slice_index_or real_time place (pos 0)) ≤ 1000000 }
        requires factors_small { (place : ℕ) → slice_index factors place ≤ 100000 }
        ensures kind { result.kind ≡ kind }
        ensures prices { prices_in result ≡ day_prices heavy light real_time factors }
    {
        let mut hours = [hour_prices(0, 0, 0); HOURS];
        for place in 0..HOURS {
            let hour = HourNumber::at(place);
            hours[place] = hour_prices(
                by_block(heavy, light, hour.block(kind)),
                real_time[place],
                factors[place],
            );
        }
        PricedDay {
            kind,
            heavy,
            light,
            real_time,
            factors,
            hours,
        }
    }
}
