// Delivery charges of the open day.
ghost use Rattle.std.specs.Prelude.{◌≡◌, ◌≤◌, ◌<◌, ◌-◌, ℕ};
ghost use Rattle.std.specs.Int.{int_max};
ghost use Rattle.tally.specs.Charges.{charge, cut_charge, failure_days};
ghost use Rattle.tally.specs.DayPrices.{day_ahead_at};
ghost use Rattle.tally.specs.Numbered.{positive_part};
ghost use Rattle.tally.specs.States.{IsParty};
ghost use Rattle.book.specs.Books.{state_of};
ghost use Rattle.book.specs.CutTables.{HasCuts, SmallCuts, hour_charges, left_before, rows_of};
ghost use Rattle.book.specs.PricedDays.{prices_in};
ghost use Rattle.book.specs.Records.{at, in_row};

use crate::book::Book;
use crate::cut_table::CutTable;
use crate::places::{HourNumber, Party};
use crate::priced_day::PricedDay;
use crate::records::{ByParty, HOURS, PARTIES};

impl Book {
    // The day-ahead price in an hour.
    fn day_ahead_at(&self, prices: &PricedDay, hour: HourNumber) -> i64
        ensures { result ≡ day_ahead_at (state_of self.now) (prices_in prices.now) hour }
    {
        prices.day_ahead(hour.block(self.day.kind))
    }

    // What a missed MWh is charged by in an hour, before the factor: the higher price, or 0 where both are below.
    pub(crate) fn charged_price(&self, prices: &PricedDay, hour: HourNumber) -> u64
        ensures value { let prices = prices_in prices.now in
            result ≡ positive_part (int_max (day_ahead_at (state_of self.now) prices hour) (prices.real_time hour)) }
        ensures size { result ≤ 1000000 }
    {
        let day_ahead = self.day_ahead_at(prices, hour);
        let higher = day_ahead.max(prices.real_time[hour.place()]);
        higher.max(0) as u64
    }

    // What a seller is charged for a buyer in an hour before the ceiling, on its failure day of that number.
    pub(crate) fn charge(
        &self,
        prices: &PricedDay,
        failure_day: u64,
        seller: Party,
        hour: HourNumber,
        buyer: Party,
    ) -> u64
        requires { failure_day ≡ failure_days (state_of self.now) seller }
        ensures value { result
            ≡ charge (state_of self.now) (prices_in prices.now) seller hour buyer }
        ensures size { result ≤ 4000000000000 }
    {
        let record = self.hour_record(hour);
        let factor = record.cover(seller, buyer).delivery_factor(failure_day);
        factor * self.charged_price(prices, hour) * u64::from(record.missed(seller, buyer))
    }

    // A seller's charges of an hour by buyer, each cut to what the ceiling still allows, which is `left`.
    fn cut_hour(
        &self,
        prices: &PricedDay,
        failure_day: u64,
        seller: Party,
        hour: HourNumber,
        left: &mut u64,
    ) -> ByParty<u64>
        requires day { failure_day ≡ failure_days (state_of self.now) seller }
        requires before { left.old ≡ left_before (state_of self.now) (prices_in prices.now) seller hour }
        ensures cuts { let state = state_of self.now in let prices = prices_in prices.now in
            (buyer : ℕ) → IsParty state buyer
            → at 0 result buyer ≡ cut_charge state prices seller hour buyer }
        ensures others { (buyer : ℕ) → self.now.pool.parties < buyer → at 0 result buyer ≡ 0 }
        ensures small { (buyer : ℕ) → at 0 result buyer ≤ 4000000000000 }
        ensures after { left.new
            ≡ left.old - hour_charges (state_of self.now) (prices_in prices.now) seller hour }
    {
        let mut cuts = [0; PARTIES];
        for buyer in 0..self.parties() {
            let charge = self.charge(prices, failure_day, seller, hour, Party::at(buyer));
            let cut = charge.min(*left);
            *left -= cut;
            cuts[buyer] = cut;
        }
        cuts
    }

    // A seller's charges of the day, each cut to what the ceiling still allows by hour, then buyer.
    pub(crate) fn cut_charges(&self, prices: &PricedDay, seller: Party) -> CutTable
        ensures cuts { HasCuts (state_of self.now) (prices_in prices.now) seller (rows_of result) }
        ensures others { (hour buyer : ℕ) → self.now.pool.parties < buyer → in_row 0 (rows_of result) hour buyer ≡ 0 }
        ensures small { SmallCuts (rows_of result) }
    {
        // Most sellers miss nothing in a day.
        if !self.is_failure_day(seller) {
            return CutTable::Nothing;
        }
        let mut rows = [[0; PARTIES]; HOURS];
        let failure_day = self.failure_days(seller);
        let mut left = self.allowance(seller);
        for hour in 0..HOURS {
            rows[hour] = self.cut_hour(
                prices,
                failure_day,
                seller,
                HourNumber::at(hour),
                &mut left,
            );
        }
        CutTable::Cuts { rows }
    }
}
