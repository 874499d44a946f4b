// A seller's block sale revenue, and what is credited against it.
ghost use Rattle.std.specs.Prelude.{◌≡◌, ◌≤◌, unsigned_abs};
ghost use Rattle.tally.specs.Settlement.{largest_holding, revenue, declined_at, declined_credit, idle_credit, credits};
ghost use Rattle.book.specs.AllottedHours.{Suffice};
ghost use Rattle.book.specs.Books.{state_of};
ghost use Rattle.book.specs.PricedDays.{prices_in};

use crate::amounts::at_price;
use crate::block_hours::BlockHours;
use crate::book::Book;
use crate::places::{HourNumber, Party};
use crate::priced_day::PricedDay;

impl Book {
    // The largest hourly holding.
    pub(crate) fn largest_holding(&self, hours: &BlockHours, seller: Party) -> u16
        requires { Suffice (state_of self.now) hours.now }
        ensures { result ≡ largest_holding (state_of self.now) hours.now.block seller }
    {
        hours.greatest(|hour| self.hour_record(hour).held(seller))
    }

    // That holding at the day-ahead price in every hour of the block.
    pub(crate) fn revenue(&self, prices: &PricedDay, hours: &BlockHours, seller: Party) -> i64
        requires { Suffice (state_of self.now) hours.now }
        ensures value { result ≡ revenue (state_of self.now) (prices_in prices.now) hours.now.block seller }
        ensures size { unsigned_abs result ≤ 96000000000000 }
    {
        let holding = self.largest_holding(hours, seller);
        if holding == 0 {
            return 0;
        }
        let amount = at_price(u32::from(holding), prices.day_ahead(hours.block));
        self.block_total(hours.block, |_| amount)
    }

    // MWh that a seller's buyers decline in an hour.
    pub(crate) fn declined_at(&self, seller: Party, hour: HourNumber) -> u32
        ensures value { result ≡ declined_at (state_of self.now) seller hour }
        ensures size { result ≤ 786420 }
    {
        let record = self.hour_record(hour);
        let mut total = 0;
        for place in 0..self.parties() {
            total += u32::from(record.declined(seller, Party::at(place)));
        }
        total
    }

    // Declined MWh at the energy price, in hours where the seller holds.
    pub(crate) fn declined_credit(
        &self,
        prices: &PricedDay,
        hours: &BlockHours,
        seller: Party,
    ) -> i64
        requires kind { prices.now.kind ≡ self.now.day.kind }
        requires hours { Suffice (state_of self.now) hours.now }
        ensures value { result
            ≡ declined_credit (state_of self.now) (prices_in prices.now) hours.now.block seller }
        ensures size { unsigned_abs result ≤ 96000000000000 }
    {
        hours.total(|hour| {
            if self.hour_record(hour).held(seller) > 0 {
                at_price(
                    self.declined_at(seller, hour),
                    self.hour_prices(prices, hour).energy,
                )
            } else {
                0
            }
        })
    }

    // The largest holding at the real-time price, in hours where it holds nothing.
    pub(crate) fn idle_credit(&self, prices: &PricedDay, hours: &BlockHours, seller: Party) -> i64
        requires { Suffice (state_of self.now) hours.now }
        ensures value { result
            ≡ idle_credit (state_of self.now) (prices_in prices.now) hours.now.block seller }
        ensures size { unsigned_abs result ≤ 96000000000000 }
    {
        let largest = self.largest_holding(hours, seller);
        if largest == 0 {
            return 0;
        }
        self.block_total(hours.block, |hour| {
            if self.hour_record(hour).held(seller) > 0 {
                0
            } else {
                at_price(u32::from(largest), prices.real_time_in(hour))
            }
        })
    }

    // Both credits.
    pub(crate) fn credits(&self, prices: &PricedDay, hours: &BlockHours, seller: Party) -> i64
        requires kind { prices.now.kind ≡ self.now.day.kind }
        requires hours { Suffice (state_of self.now) hours.now }
        ensures value { result ≡ credits (state_of self.now) (prices_in prices.now) hours.now.block seller }
        ensures size { unsigned_abs result ≤ 192000000000000 }
    {
        self.declined_credit(prices, hours, seller) + self.idle_credit(prices, hours, seller)
    }
}
