// The entries that fill a sheet.
ghost use Rattle.std.specs.Prelude.{◌≡◌, None};
ghost use Rattle.tariff.specs.Answers.{told, after};
ghost use Rattle.tariff.specs.Tables.{Priced};
ghost use Rattle.sheets.specs.DaySheets.{sheet_of};
ghost use Rattle.sheets.specs.Sheets.{day_answer, hours_entry_answer, opened, filled, day_entered, hours_entered};

use crate::day_sheet::{DaySheet, Hour};
use crate::hours::Hours;
use crate::real_time::RealTime;
use std::marker::PhantomData;
use tariff::figures::{Price, enter_or_miss};
use tariff::refusal::Refusal;

impl<Q: RealTime> DaySheet<Q> {
    // A sheet with a day's day-ahead prices, on which no hour has a figure.
    fn of_day(day: u64, heavy: Option<Price>, light: Option<Price>) -> DaySheet<Q>
        requires heavy { Priced heavy }
        requires light { Priced light }
        ensures { sheet_of result ≡ opened day heavy light }
    {
        DaySheet {
            day,
            heavy,
            light,
            hours: [Hour::missing(); 24],
            entered: PhantomData,
        }
    }

    // A sheet for day 1 on which every figure is missing.
    pub fn new() -> DaySheet<Q>
        ensures { sheet_of result ≡ opened 1 None None }
    {
        DaySheet::of_day(1, None, None)
    }

    // Turns to a day with its day-ahead prices, and clears the hours.
    pub fn enter_day(
        &mut self,
        day: i64,
        heavy: Option<i64>,
        light: Option<i64>,
    ) -> Result<(), Refusal>
        ensures answer { told result ≡ day_answer day heavy light }
        ensures sheet { sheet_of self.new ≡ after (told result) (day_entered day heavy light) (sheet_of self.old) }
    {
        let Ok(day @ 1..=4000) = u64::try_from(day) else {
            return Err(Refusal::Day { position: 1 });
        };
        let heavy = enter_or_miss(heavy, 2)?;
        let light = enter_or_miss(light, 3)?;
        *self = DaySheet::of_day(day, heavy, light);
        Ok(())
    }

    // Writes what stands for one hour into hours of the sheet's day.
    fn fill(&mut self, hours: Hours, hour: Hour)
        ensures { sheet_of self.new ≡ filled hours.first hours.last hour.real_time hour.factor (sheet_of self.old) }
    {
        // The whole row as a slice first: a part of an array that is a field cannot be lent in a proof.
        let row = &mut self.hours[..];
        row[hours.first - 1..hours.last].fill(hour);
    }

    // Fills the hours from first to last of the sheet's day.
    pub fn enter_hours(
        &mut self,
        first: i64,
        last: i64,
        real_time: Q,
        factor: Option<i64>,
    ) -> Result<(), Refusal>
        ensures answer { told result ≡ hours_entry_answer first last (Q.answer real_time) Q.FACTOR factor }
        ensures sheet { sheet_of self.new
            ≡ after (told result) (hours_entered first last (Q.price real_time) factor) (sheet_of self.old) }
    {
        let hours = Hours::enter(first, last)?;
        let real_time = real_time.settle()?;
        let factor = enter_or_miss(factor, Q::FACTOR)?;
        self.fill(hours, Hour { real_time, factor });
        Ok(())
    }
}
