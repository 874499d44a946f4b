// The prices by which an open day is settled.
ghost use Rattle.std.specs.Prelude.{◌≡◌, ℕ, suc, ◌<◌, ◌≤◌, pos, unsigned_abs, slice_index, slice_index_or};
ghost use Rattle.book.specs.HourPricing.{priced_at};

use crate::records::ByHour;
use tariff::blocks::DayKind;
use tariff::prices::HourPrices;

pub(crate) mod pricing;

// What is not needed stands at 0. An hour's prices are those of its block's day-ahead price, its real-time price and
// its factor.
#[derive(Clone, Copy)]
pub(crate) struct PricedDay {
    pub(crate) kind: DayKind,
    pub(crate) heavy: i64,
    pub(crate) light: i64,
    pub(crate) real_time: ByHour<i64>,
    pub(crate) factors: ByHour<u64>,
    pub(crate) hours: ByHour<HourPrices>,
    pub(crate) ghost heavy_small: { unsigned_abs heavy ≤ 1000000 },
    pub(crate) ghost light_small: { unsigned_abs light ≤ 1000000 },
    pub(crate) ghost real_time_small: { (place : ℕ) → unsigned_abs (slice_index_or real_time place (pos 0)) ≤ 1000000 },
    pub(crate) ghost factors_small: { (place : ℕ) → slice_index factors place ≤ 100000 },
    pub(crate) ghost priced: { (place : ℕ) → place < 24
        → slice_index_or hours place (priced_at kind heavy light real_time factors 0)
        ≡ priced_at kind heavy light real_time factors (suc place) },
}
