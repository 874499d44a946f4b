// What a buyer pays to a seller in a block: holdback for what is held, energy for what is delivered.
ghost use Rattle.std.specs.Prelude.{◌≡◌, ◌≤◌, unsigned_abs};
ghost use Rattle.tally.specs.Settlement.{holdback, energy, settlement};
ghost use Rattle.book.specs.AllottedHours.{Suffice};
ghost use Rattle.book.specs.Books.{state_of};
ghost use Rattle.book.specs.PricedDays.{prices_in};

use crate::amounts::at_price;
use crate::block_hours::BlockHours;
use crate::book::Book;
use crate::places::Party;
use crate::priced_day::PricedDay;

impl Book {
    // Holdback price × MW held.
    pub(crate) fn holdback(
        &self,
        prices: &PricedDay,
        hours: &BlockHours,
        seller: Party,
        buyer: Party,
    ) -> i64
        requires kind { prices.now.kind ≡ self.now.day.kind }
        requires hours { Suffice (state_of self.now) hours.now }
        ensures value { result
            ≡ holdback (state_of self.now) (prices_in prices.now) hours.now.block seller buyer }
        ensures size { unsigned_abs result ≤ 96000000000000 }
    {
        hours.total(|hour| {
            let price = self.hour_prices(prices, hour).holdback;
            at_price(u32::from(self.hour_record(hour).pair(seller, buyer)), price)
        })
    }

    // Energy price × MWh delivered.
    pub(crate) fn energy(
        &self,
        prices: &PricedDay,
        hours: &BlockHours,
        seller: Party,
        buyer: Party,
    ) -> i64
        requires kind { prices.now.kind ≡ self.now.day.kind }
        requires hours { Suffice (state_of self.now) hours.now }
        ensures value { result
            ≡ energy (state_of self.now) (prices_in prices.now) hours.now.block seller buyer }
        ensures size { unsigned_abs result ≤ 96000000000000 }
    {
        hours.total(|hour| {
            let price = self.hour_prices(prices, hour).energy;
            at_price(
                u32::from(self.hour_record(hour).delivered(seller, buyer)),
                price,
            )
        })
    }

    // What all buyers pay so to a seller.
    pub(crate) fn settlement(&self, prices: &PricedDay, hours: &BlockHours, seller: Party) -> i64
        requires kind { prices.now.kind ≡ self.now.day.kind }
        requires hours { Suffice (state_of self.now) hours.now }
        ensures value { result
            ≡ settlement (state_of self.now) (prices_in prices.now) hours.now.block seller }
        ensures size { unsigned_abs result ≤ 2304000000000000 }
    {
        let mut total = 0;
        for place in 0..self.parties() {
            let buyer = Party::at(place);
            total += self.holdback(prices, hours, seller, buyer)
                + self.energy(prices, hours, seller, buyer);
        }
        total
    }
}
