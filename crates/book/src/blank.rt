// What a book has before anything is entered.
ghost use Rattle.std.specs.Prelude.{◌≡◌, true, false};
ghost use Rattle.std.specs.List.{All};
ghost use Rattle.tally.specs.Hours.{blank};
ghost use Rattle.tally.specs.States.{fresh_year};
ghost use Rattle.book.specs.Led.{Laid};
ghost use Rattle.book.specs.Records.{hour_of, hours_of, year_in};
ghost use Rattle.book.specs.declared.records.HourRecord.TheVariants.{Unallotted};

use crate::records::{ByHour, DayRecord, Entered, HOURS, HourRecord, MONTHS, PARTIES, YearRecord};
use tariff::blocks::DayKind;

impl Entered {
    // Nothing was entered.
    fn blank() -> Entered
        ensures hour { hour_of (Unallotted result) ≡ blank }
        ensures laid { Laid (Unallotted result) }
    {
        Entered {
            results: [0; PARTIES],
            offers: [0; PARTIES],
            requests: [0; PARTIES],
        }
    }
}

// Clears every hour where it stands, so that what only an allotted hour has costs nothing.
fn clear(hours: &mut ByHour<HourRecord>)
    ensures blank { hours_of hours.new ≡ λ hour. blank }
    ensures laid { All Laid hours.old → All Laid hours.new }
{
    for place in 0..HOURS {
        match &mut hours[place] {
            HourRecord::Unallotted { entered } => *entered = Entered::blank(),
            allotted => {
                *allotted = HourRecord::Unallotted {
                    entered: Entered::blank(),
                }
            }
        }
    }
}

impl DayRecord {
    // Before the first day is opened.
    pub(crate) fn none() -> DayRecord
        ensures number { result.number ≡ 0 }
        ensures is_open { result.is_open ≡ false }
        ensures kind { result.kind ≡ DayKind.Workday }
        ensures hours { hours_of result.hours ≡ λ hour. blank }
        ensures laid { All Laid result.hours }
    {
        DayRecord {
            number: 0,
            is_open: false,
            kind: DayKind::Workday,
            hours: [HourRecord::Unallotted {
                entered: Entered::blank(),
            }; HOURS],
        }
    }

    // Opens a day.
    pub(crate) fn open(&mut self, number: u64, kind: DayKind)
        ensures number { self.new.number ≡ number }
        ensures is_open { self.new.is_open ≡ true }
        ensures kind { self.new.kind ≡ kind }
        ensures hours { hours_of self.new.hours ≡ λ hour. blank }
        ensures laid { All Laid self.old.hours → All Laid self.new.hours }
    {
        self.number = number;
        self.is_open = true;
        self.kind = kind;
        clear(&mut self.hours);
    }
}

impl YearRecord {
    // A year that was just started.
    pub(crate) fn fresh() -> YearRecord
        ensures { year_in result ≡ fresh_year }
    {
        YearRecord {
            month: 0,
            failure_days: [0; PARTIES],
            misses: [[0; MONTHS]; PARTIES],
            charges: [0; PARTIES],
        }
    }
}
