// What is held in the hours and blocks of the day.
ghost use Rattle.std.specs.Prelude.{◌≡◌};
ghost use Rattle.tally.specs.DayPrices.{held_at, is_held_in};
ghost use Rattle.book.specs.Books.{state_of};

use crate::book::Book;
use crate::places::HourNumber;
use crate::records::{HOURS, HourRecord};
use crate::sums::total_mw;
use tariff::blocks::Block;

impl Book {
    // MW held in an hour, by all sellers together.
    pub(crate) fn held_at(&self, hour: HourNumber) -> u32
        ensures { result ≡ held_at (state_of self.now) hour }
    {
        match self.hour_record(hour) {
            HourRecord::Unallotted { .. } => 0,
            HourRecord::Allotted { held, .. } => total_mw(&held.holdings, self.parties()),
        }
    }

    // Whether any MW is held in a block.
    pub(crate) fn is_held_in(&self, block: Block) -> bool
        ensures { result ≡ is_held_in (state_of self.now) block }
    {
        for place in 0..HOURS {
            let hour = HourNumber::at(place);
            if self.in_block(block, hour) && self.held_at(hour) > 0 {
                return true;
            }
        }
        false
    }
}
