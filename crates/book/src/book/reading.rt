// What a book's records have: its parties, hours and blocks, and in the files below what callers read back.
ghost use Rattle.std.specs.Prelude.{◌≡◌, ◌≤◌};
ghost use Rattle.tally.specs.DayPrices.{in_block};
ghost use Rattle.tally.specs.States.{hour_at};
ghost use Rattle.book.specs.Books.{pairs_at, state_of};
ghost use Rattle.book.specs.Led.{Laid};
ghost use Rattle.book.specs.Records.{by_seller, held_of, hour_of};

use crate::book::Book;
use crate::places::HourNumber;
use crate::records::HourRecord;
use tariff::blocks::Block;

mod accounts;
mod holding;
mod pair_page;
mod party_years;

impl Book {
    // How many parties there are.
    #[tactic(auto, using(crate::proofs::Facts::few_of))]
    pub fn parties(&self) -> usize
        ensures value { result ≡ self.now.pool.parties }
        ensures few { result ≤ 12 }
    {
        self.pool.parties
    }

    // The record of an hour of the day.
    pub(crate) fn hour_record(&self, hour: HourNumber) -> &HourRecord
        ensures value { hour_of result.now ≡ hour_at (state_of self.now) hour }
        ensures pairs { by_seller 0 (held_of result.now).pairs ≡ pairs_at self.now hour }
        ensures laid { Laid result.now }
    {
        &self.day.hours[hour.place()]
    }

    // Whether an hour of the day belongs to a block.
    pub(crate) fn in_block(&self, block: Block, hour: HourNumber) -> bool
        ensures { result ≡ in_block (state_of self.now) block hour }
    {
        hour.block(self.day.kind) == block
    }
}
