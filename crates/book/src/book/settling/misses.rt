// What sellers missed, in an hour, a day and each month, and the ceiling that follows.
ghost use Rattle.std.specs.Prelude.{◌≡◌, ◌≤◌, ℕ, max, length, ◌<◌, if◌then◌else◌, ◌==◌, true};
ghost use Rattle.tariff.specs.Blocks.{hours_of_day};
ghost use Rattle.tally.specs.Charges.{missed_at, is_failure_day, failure_days, month_miss};
ghost use Rattle.tally.specs.Charges.{ceiling_of, ceiling, allowance};
ghost use Rattle.tally.specs.Numbered.{greatest};
ghost use Rattle.book.specs.Books.{state_of};
ghost use Rattle.book.specs.Records.{at};

use crate::book::Book;
use crate::book::days::LAST_MONTH;
use crate::places::{HourNumber, Party};
use crate::records::{ByMonth, HOURS};

impl Book {
    // MWh that a seller missed in an hour, with all buyers together.
    pub(crate) fn missed_at(&self, seller: Party, hour: HourNumber) -> u64
        ensures value { result ≡ missed_at (state_of self.now) seller hour }
        ensures size { result ≤ 10000 }
    {
        let record = self.hour_record(hour);
        let mut all = 0;
        for buyer in 0..self.parties() {
            all += u64::from(record.missed(seller, Party::at(buyer)));
        }
        all
    }

    // The most that a seller missed in one hour of the day.
    pub(crate) fn largest_miss(&self, seller: Party) -> u64
        ensures value { result ≡ greatest (missed_at (state_of self.now) seller) hours_of_day }
        ensures size { result ≤ 10000 }
    {
        let mut largest = 0;
        for place in 0..HOURS {
            let hour = HourNumber::at(place);
            // Until an hour is allotted nothing of it is missed.
            if self.is_allotted(hour) {
                largest = self.missed_at(seller, hour).max(largest);
            }
        }
        largest
    }

    // Whether a seller missed any MWh in the day.
    pub(crate) fn is_failure_day(&self, seller: Party) -> bool
        ensures { result ≡ is_failure_day (state_of self.now) seller }
    {
        self.largest_miss(seller) > 0
    }

    // A seller's failure days of the year, today's with them.
    pub(crate) fn failure_days(&self, seller: Party) -> u64
        ensures { result ≡ failure_days (state_of self.now) seller }
    {
        self.year.failure_days[seller.place()] + u64::from(self.is_failure_day(seller))
    }

    // The largest hourly miss of a seller in each month of the year, today's counted in its month.
    pub(crate) fn month_misses(&self, seller: Party) -> ByMonth<u64>
        ensures value { (month : ℕ) → 0 < month → month ≤ 12
            → at 0 result month ≡ month_miss (state_of self.now) seller month }
        ensures size { (month : ℕ) → at 0 result month ≤ 10000 }
        ensures whole { let state = state_of self.now in
            state.day.is_open ≡ true → at 0 result ≡ month_miss state seller }
    {
        counted(
            &self.year.misses[seller.place()],
            self.year.month,
            self.largest_miss(seller),
        )
    }

    // The most that can be charged in a year: the full rate for the largest month, the step rate for the others.
    pub(crate) fn ceiling_of(&self, misses: &ByMonth<u64>) -> u64
        requires { (month : ℕ) → at 0 misses.now month ≤ 10000 }
        ensures value { result ≡ ceiling_of (state_of self.now).set_up (at 0 misses.now) }
        ensures size { result ≤ 12000000000000 }
    {
        let mut largest = 0;
        let mut all = 0;
        for miss in misses {
            largest = largest.max(*miss);
            all += *miss;
        }
        self.pool.full_rate * largest + self.pool.step_rate * (all - largest)
    }

    // A seller's ceiling, today counted.
    pub(crate) fn ceiling(&self, seller: Party) -> u64
        ensures value { result ≡ ceiling (state_of self.now) seller }
        ensures size { result ≤ 12000000000000 }
    {
        self.ceiling_of(&self.month_misses(seller))
    }

    // What a seller can still be charged in the day.
    pub(crate) fn allowance(&self, seller: Party) -> u64
        ensures { result ≡ allowance (state_of self.now) seller }
    {
        self.ceiling(seller)
            .saturating_sub(self.year.charges[seller.place()])
    }
}

// The largest misses by month, one more counted in its month.
fn counted(misses: &ByMonth<u64>, month: u64, miss: u64) -> ByMonth<u64>
    ensures value { (k : ℕ) → 0 < k → k ≤ 12
        → at 0 result k ≡ max (at 0 misses.now k) (if k == month then miss else 0) }
    ensures beyond { (k : ℕ) → 12 < k → at 0 misses.now k ≡ 0 }
    ensures length { length result ≡ 12 }
{
    let mut counted = *misses;
    if 1 <= month && month <= LAST_MONTH {
        let place = month as usize - 1;
        counted[place] = counted[place].max(miss);
    }
    counted
}
