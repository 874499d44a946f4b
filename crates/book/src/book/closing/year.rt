// The program year with the open day counted.
ghost use Rattle.std.specs.Prelude.{◌≡◌, ◌≤◌, ℕ, true};
ghost use Rattle.tally.specs.DayPrices.{DayPrices};
ghost use Rattle.tally.specs.States.{IsParty};
ghost use Rattle.tally.specs.Years.{day_charges, year_closed};
ghost use Rattle.book.specs.Books.{state_of};
ghost use Rattle.book.specs.Records.{at, year_in};

use crate::book::Book;
use crate::places::Party;
use crate::records::{ByParty, YearRecord};

impl Book {
    // The year as a close leaves it, by what each seller is charged in the day.
    pub(crate) fn closed_year(&self, charges: &ByParty<u64>) -> YearRecord
        requires is_open { (state_of self.now).day.is_open ≡ true }
        requires small { (seller : ℕ) → at 0 charges.now seller ≤ 1152000000000000 }
        ensures { let state = state_of self.now in
            (prices : DayPrices)
            → ((seller : ℕ) → IsParty state seller → at 0 charges.now seller ≡ day_charges state prices seller)
            → year_in result ≡ year_closed state prices }
    {
        let mut year = self.year;
        for place in 0..self.parties() {
            let seller = Party::at(place);
            year.failure_days[place] = self.failure_days(seller);
            year.misses[place] = self.month_misses(seller);
            year.charges[place] = self.year.charges[place] + charges[place];
        }
        year
    }
}
