// A seller's make-whole in a block, and the claims among which it is divided.
ghost use Rattle.std.specs.Prelude.{◌≡◌, ◌≤◌, take, ◌-ℤ◌};
ghost use Rattle.tally.specs.MakeWhole.{largest_pair, make_whole_claims};
ghost use Rattle.tally.specs.Settlement.{revenue, settlement, credits, make_whole};
ghost use Rattle.book.specs.AllottedHours.{Suffice};
ghost use Rattle.book.specs.Books.{state_of};
ghost use Rattle.book.specs.PricedDays.{prices_in};

use crate::block_hours::BlockHours;
use crate::book::Book;
use crate::places::Party;
use crate::priced_day::PricedDay;
use crate::records::{ByParty, PARTIES};

impl Book {
    // What settlement and credits lack of the revenue; below 0 where they lack nothing.
    fn revenue_gap(&self, prices: &PricedDay, hours: &BlockHours, seller: Party) -> i64
        requires kind { prices.now.kind ≡ self.now.day.kind }
        requires hours { Suffice (state_of self.now) hours.now }
        ensures { result ≡ revenue (state_of self.now) (prices_in prices.now) hours.now.block seller
            -ℤ settlement (state_of self.now) (prices_in prices.now) hours.now.block seller
            -ℤ credits (state_of self.now) (prices_in prices.now) hours.now.block seller }
    {
        self.revenue(prices, hours, seller)
            - self.settlement(prices, hours, seller)
            - self.credits(prices, hours, seller)
    }

    // What is to be made whole.
    pub(crate) fn make_whole(&self, prices: &PricedDay, hours: &BlockHours, seller: Party) -> u64
        requires kind { prices.now.kind ≡ self.now.day.kind }
        requires hours { Suffice (state_of self.now) hours.now }
        ensures value { result
            ≡ make_whole (state_of self.now) (prices_in prices.now) hours.now.block seller }
        ensures size { result ≤ 960000000000 }
    {
        self.revenue_gap(prices, hours, seller).max(0) as u64
    }

    // The largest hourly MW of a buyer with a seller.
    pub(crate) fn largest_pair(&self, hours: &BlockHours, seller: Party, buyer: Party) -> u16
        requires { Suffice (state_of self.now) hours.now }
        ensures { result ≡ largest_pair (state_of self.now) hours.now.block seller buyer }
    {
        hours.greatest(|hour| self.hour_record(hour).pair(seller, buyer))
    }

    // What a seller's buyers claim of its make-whole; a place past the parties has 0.
    pub(crate) fn claims(&self, hours: &BlockHours, seller: Party) -> ByParty<u64>
        requires { Suffice (state_of self.now) hours.now }
        ensures { take self.now.pool.parties result
            ≡ make_whole_claims (state_of self.now) hours.now.block seller }
    {
        let mut claims = [0; PARTIES];
        for place in 0..self.parties() {
            claims[place] = u64::from(self.largest_pair(hours, seller, Party::at(place)));
        }
        claims
    }
}
