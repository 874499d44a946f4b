// Opening and dropping a day, and starting a year.
ghost use Rattle.std.specs.Prelude.{◌+◌, max, unsigned_abs};
ghost use Rattle.tally.specs.Events.{open_day, start_year, void_day};
ghost use Rattle.tally.specs.States.{months_of_year};
ghost use Rattle.tariff.specs.Answers.{Gives, require, told};
ghost use Rattle.tariff.specs.Blocks.{last_day};
ghost use Rattle.tariff.specs.Figures.{between};
ghost use Rattle.tariff.specs.declared.refusal.Refusal.TheVariants.{Day, Month};
ghost use Rattle.book.specs.Stepped.{Stepped};

use crate::book::Book;
use crate::records::YearRecord;
use tariff::blocks::DayKind;
use tariff::refusal::Refusal;

// The last day that a book can have, and the last month of a year.
const LAST_DAY: u64 = 4000;

pub(crate) const LAST_MONTH: u64 = 12;

impl Book {
    // A day's number, which is above that of every day opened before.
    fn later_day(&self, day: i64) -> Result<u64, Refusal>
        ensures { Gives (require (between (self.now.day.number + 1) last_day day) (Day 1)) (unsigned_abs day) result }
    {
        match u64::try_from(day) {
            Ok(number @ 0..=LAST_DAY) if number > self.day.number => Ok(number),
            _ => Err(Refusal::Day { position: 1 }),
        }
    }

    // A day's month, which never falls within a year.
    fn later_month(&self, month: i64) -> Result<u64, Refusal>
        ensures { Gives (require (between (max 1 self.now.year.month) months_of_year month) (Month 3))
            (unsigned_abs month) result }
    {
        match u64::try_from(month) {
            Ok(month @ 1..=LAST_MONTH) if month >= self.year.month => Ok(month),
            _ => Err(Refusal::Month { position: 3 }),
        }
    }

    // Opens a day, of which every figure is 0 and no hour allotted.
    pub fn open_day(&mut self, day: i64, kind: DayKind, month: i64) -> Result<(), Refusal>
        ensures { Stepped self.old (open_day day kind month) (told result) self.new }
    {
        self.require_shut()?;
        let number = self.later_day(day)?;
        let month = self.later_month(month)?;
        self.day.open(number, kind);
        self.year.month = month;
        Ok(())
    }

    // Drops the open day, its number and month used up.
    pub fn void_day(&mut self) -> Result<(), Refusal>
        ensures { Stepped self.old void_day (told result) self.new }
    {
        self.require_open()?;
        self.day.is_open = false;
        Ok(())
    }

    // Starts a program year.
    pub fn start_year(&mut self) -> Result<(), Refusal>
        ensures { Stepped self.old start_year (told result) self.new }
    {
        self.require_shut()?;
        self.year = YearRecord::fresh();
        Ok(())
    }
}
