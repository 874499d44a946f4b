// The prices by which a book's day is settled.
ghost use Rattle.std.specs.Prelude.{◌≡◌, ◌≤◌, unsigned_abs};
ghost use Rattle.tally.specs.DayPrices.{prices_of};
ghost use Rattle.book.specs.Books.{state_of};
ghost use Rattle.book.specs.PricedDays.{prices_in};

use crate::book::Book;
use crate::places::HourNumber;
use crate::priced_day::PricedDay;
use tariff::blocks::Block;
use tariff::prices::HourPrices;

impl PricedDay {
    // A block's day-ahead price.
    pub(crate) fn day_ahead(&self, block: Block) -> i64
        ensures value { result ≡ (prices_in self.now).day_ahead block }
        ensures size { unsigned_abs result ≤ 1000000 }
    {
        match block {
            Block::Heavy => self.heavy,
            Block::Light => self.light,
        }
    }

    // An hour's real-time price.
    pub(crate) fn real_time_in(&self, hour: HourNumber) -> i64
        ensures value { result ≡ (prices_in self.now).real_time hour }
        ensures size { unsigned_abs result ≤ 1000000 }
    {
        self.real_time[hour.place()]
    }
}

impl Book {
    // An hour's settlement prices.
    pub(crate) fn hour_prices(&self, prices: &PricedDay, hour: HourNumber) -> HourPrices
        requires { prices.now.kind ≡ self.now.day.kind }
        ensures value { result ≡ prices_of (state_of self.now) (prices_in prices.now) hour }
        ensures energy_size { unsigned_abs result.energy ≤ 1000000 }
        ensures holdback_size { unsigned_abs result.holdback ≤ 1200000 }
    {
        prices.hours[hour.place()]
    }
}
