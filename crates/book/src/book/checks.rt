// The tests that calls have in common. What they find stands in the types: places, and figures within their limits.
ghost use Rattle.std.specs.Prelude.{◌≡◌, unsigned_abs};
ghost use Rattle.tally.specs.Denials.{day_is_open, is_figure_at, is_hour_at, is_party_at, is_result_at, no_day_is_open};
ghost use Rattle.tally.specs.States.{hour_at};
ghost use Rattle.tariff.specs.Answers.{Gives, require, told};
ghost use Rattle.tariff.specs.declared.refusal.Refusal.TheVariants.{HourNotAllotted};
ghost use Rattle.book.specs.Books.{state_of};

use crate::book::Book;
use crate::places::{HourNumber, Party};
use crate::records::{HOURS, HourRecord};
use tariff::refusal::Refusal;

// MW or MWh of an entry, at most.
pub(crate) const MOST_MW: u16 = 5000;

impl Book {
    // That a day is open.
    pub(crate) fn require_open(&self) -> Result<(), Refusal>
        ensures { told result ≡ day_is_open (state_of self.now) }
    {
        if self.day.is_open {
            Ok(())
        } else {
            Err(Refusal::NoDayOpen)
        }
    }

    // That no day is open.
    pub(crate) fn require_shut(&self) -> Result<(), Refusal>
        ensures { told result ≡ no_day_is_open (state_of self.now) }
    {
        if self.day.is_open {
            Err(Refusal::DayOpen)
        } else {
            Ok(())
        }
    }

    // The hour that an entry names.
    pub(crate) fn hour(&self, position: u64, hour: i64) -> Result<HourNumber, Refusal>
        ensures { Gives (is_hour_at (state_of self.now) position hour) (unsigned_abs hour) result }
    {
        match usize::try_from(hour) {
            Ok(number @ 1..=HOURS) => Ok(HourNumber::at(number - 1)),
            _ => Err(Refusal::Hour { position }),
        }
    }

    // The party that it names.
    #[tactic(auto, using(crate::proofs::Facts::few_of))]
    pub(crate) fn party(&self, position: u64, party: i64) -> Result<Party, Refusal>
        ensures { Gives (is_party_at (state_of self.now) position party) (unsigned_abs party) result }
    {
        match usize::try_from(party) {
            Ok(number) if 1 <= number && number <= self.parties() => Ok(Party::at(number - 1)),
            _ => Err(Refusal::Party { position }),
        }
    }

    // That an hour was allotted.
    pub(crate) fn require_allotted(&self, hour: HourNumber) -> Result<(), Refusal>
        ensures { told result
            ≡ require (hour_at (state_of self.now) hour).allotted (HourNotAllotted hour) }
    {
        match self.hour_record(hour) {
            HourRecord::Unallotted { .. } => Err(Refusal::HourNotAllotted {
                hour: hour.number(),
            }),
            HourRecord::Allotted { .. } => Ok(()),
        }
    }

    // MW or MWh of an entry.
    pub(crate) fn figure(&self, position: u64, figure: i64) -> Result<u16, Refusal>
        ensures { Gives (is_figure_at (state_of self.now) position figure) (unsigned_abs figure) result }
    {
        match u16::try_from(figure) {
            Ok(mw @ 0..=MOST_MW) => Ok(mw),
            _ => Err(Refusal::Figure { position }),
        }
    }

    // MW of a result, which may be below 0.
    pub(crate) fn signed_figure(&self, position: u64, figure: i64) -> Result<i16, Refusal>
        ensures { Gives (is_result_at (state_of self.now) position figure) figure result }
    {
        match i16::try_from(figure) {
            Ok(mw) if mw.unsigned_abs() <= MOST_MW => Ok(mw),
            _ => Err(Refusal::Figure { position }),
        }
    }
}
