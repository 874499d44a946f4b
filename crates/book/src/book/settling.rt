// The payments of a closed day.
ghost use Rattle.std.specs.Prelude.{◌≡◌, ℕ, ◌<◌, ◌≤◌, suc, slice_index, slice_index_or};
ghost use Rattle.tariff.specs.declared.blocks.Block.{Block};
ghost use Rattle.tally.specs.States.{IsParty};
ghost use Rattle.tally.specs.Years.{day_charges};
ghost use Rattle.book.specs.AllottedHours.{Suffice};
ghost use Rattle.book.specs.Books.{state_of};
ghost use Rattle.book.specs.CutTables.{HasCuts, SmallCuts, rows_of};
ghost use Rattle.book.specs.Pages.{nothing};
ghost use Rattle.book.specs.Payments.{payment_of};
ghost use Rattle.book.specs.PricedDays.{prices_in};
ghost use Rattle.book.specs.Records.{at};
ghost use Rattle.book.specs.PaidTables.{PaidIn, paid, paid_at};
ghost use Rattle.book.specs.Sharing.{shares_in};

use crate::block_hours::BlockHours;
use crate::book::Book;
use crate::book::settling::sharing::MakeWholeShares;
use crate::cut_table::CutTable;
use crate::payment::Payment;
use crate::places::Party;
use crate::priced_day::PricedDay;
use crate::records::{ByParty, PARTIES};
use tariff::blocks::Block;
use tariff::charges::Cover;

mod allotted;
mod blocks;
mod charging;
mod credits;
mod make_whole;
mod misses;
mod payees;
mod settlement;
mod sharing;

// The payments of each block, with a row for each seller, and what each seller is charged in the day.
#[derive(Clone, Copy)]
pub(crate) struct Settled {
    pub(crate) heavy: ByParty<ByParty<Payment>>,
    pub(crate) light: ByParty<ByParty<Payment>>,
    pub(crate) charges: ByParty<u64>,
}

impl Book {
    // What passes between a seller and a buyer in a block.
    fn payment(
        &self,
        prices: &PricedDay,
        hours: &BlockHours,
        seller: Party,
        buyer: Party,
        share: u64,
        cuts: &CutTable,
    ) -> Payment
        requires kind { prices.now.kind ≡ self.now.day.kind }
        requires hours { Suffice (state_of self.now) hours.now }
        requires buyer { buyer ≤ self.now.pool.parties }
        requires share { share ≤ 960000000000 }
        requires cuts { HasCuts (state_of self.now) (prices_in prices.now) seller (rows_of cuts.now) }
        requires small { SmallCuts (rows_of cuts.now) }
        ensures { payment_of result
            ≡ paid (state_of self.now) (prices_in prices.now) hours.now.block seller
            buyer share }
    {
        Payment {
            holdback: self.holdback(prices, hours, seller, buyer),
            energy: self.energy(prices, hours, seller, buyer),
            make_whole: share as i64,
            to_pool: self.to_payee(cuts, hours.block, Cover::Covered, seller, buyer),
            to_buyer: self.to_payee(cuts, hours.block, Cover::Uncovered, seller, buyer),
        }
    }

    // A seller's payments in a block, by buyer.
    fn payments(
        &self,
        prices: &PricedDay,
        hours: &BlockHours,
        seller: Party,
        shares: &ByParty<u64>,
        cuts: &CutTable,
    ) -> ByParty<Payment>
        requires kind { prices.now.kind ≡ self.now.day.kind }
        requires hours { Suffice (state_of self.now) hours.now }
        requires seller { seller ≤ self.now.pool.parties }
        requires shares { (buyer : ℕ) → buyer < self.now.pool.parties → slice_index shares.now buyer ≤ 960000000000 }
        requires cuts { HasCuts (state_of self.now) (prices_in prices.now) seller (rows_of cuts.now) }
        requires small { SmallCuts (rows_of cuts.now) }
        ensures { (place buyer : ℕ) → seller ≡ suc place → buyer < 12 → payment_of (slice_index_or result buyer nothing)
            ≡ paid_at (state_of self.now) (prices_in prices.now) hours.now.block place buyer
            (slice_index shares.now buyer) }
    {
        let mut row = [Payment::NONE; PARTIES];
        for place in 0..self.parties() {
            row[place] = self.payment(prices, hours, seller, Party::at(place), shares[place], cuts);
        }
        row
    }

    // All payments of the day.
    pub(crate) fn settle(&self, prices: &PricedDay, shares: &MakeWholeShares) -> Settled
        requires kind { prices.now.kind ≡ self.now.day.kind }
        requires shares { (block : Block) (seller buyer : ℕ) → seller < self.now.pool.parties
            → buyer < self.now.pool.parties
            → shares_in shares.now.heavy shares.now.light block (suc seller) (suc buyer) ≤ 960000000000 }
        ensures heavy { PaidIn (state_of self.now) (prices_in prices.now) Block.Heavy
            (shares_in shares.now.heavy shares.now.light Block.Heavy) result.heavy }
        ensures light { PaidIn (state_of self.now) (prices_in prices.now) Block.Light
            (shares_in shares.now.heavy shares.now.light Block.Light) result.light }
        ensures charges { (seller : ℕ) → IsParty (state_of self.now) seller
            → at 0 result.charges seller ≡ day_charges (state_of self.now) (prices_in prices.now) seller }
        ensures small { (seller : ℕ) → at 0 result.charges seller ≤ 1152000000000000 }
    {
        let mut settled = Settled {
            heavy: [[Payment::NONE; PARTIES]; PARTIES],
            light: [[Payment::NONE; PARTIES]; PARTIES],
            charges: [0; PARTIES],
        };
        let heavy_hours = self.allotted_hours(Block::Heavy);
        let light_hours = self.allotted_hours(Block::Light);
        for place in 0..self.parties() {
            let seller = Party::at(place);
            let cuts = self.cut_charges(prices, seller);
            settled.heavy[place] = self.payments(
                prices,
                &heavy_hours,
                seller,
                &shares.heavy[place],
                &cuts,
            );
            settled.light[place] = self.payments(
                prices,
                &light_hours,
                seller,
                &shares.light[place],
                &cuts,
            );
            settled.charges[place] = self.day_charges(&cuts);
        }
        settled
    }
}
