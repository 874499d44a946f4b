// A sheet as a source of prices.
ghost use Rattle.std.specs.Prelude.{◌≡◌};
ghost use Rattle.sheets.specs.DaySheets.{tables_of, hour_of};
ghost use Rattle.sheets.specs.SheetLimits.{sheet_limited};

use crate::day_sheet::{DaySheet, Hour};
use tariff::blocks::{Block, place_of};
use tariff::figures::Price;
use tariff::source::PriceSource;

impl<Q> DaySheet<Q> {
    // What stands for an hour, nothing if it is another day's or outside the day.
    fn hour(&self, day: u64, hour: u64) -> Hour
        ensures { result ≡ hour_of self.now day hour }
    {
        match place_of(hour) {
            Some(place) if day == self.day => self.hours[place],
            _ => Hour::missing(),
        }
    }
}

impl<Q> PriceSource for DaySheet<Q> {
    ghost tables = { tables_of };

    ghost limited = { λ source. sheet_limited source };

    fn day_ahead(&self, day: u64, block: Block) -> Option<i64> {
        if day != self.day {
            return None;
        }
        let price = match block {
            Block::Heavy => self.heavy,
            Block::Light => self.light,
        };
        price.map(Price::cents)
    }

    fn real_time(&self, day: u64, hour: u64) -> Option<i64> {
        self.hour(day, hour).real_time.map(Price::cents)
    }

    fn factor(&self, day: u64, hour: u64) -> Option<u64> {
        let factor = self.hour(day, hour).factor;
        factor.map(|factor| u64::from(factor.parts()))
    }
}
