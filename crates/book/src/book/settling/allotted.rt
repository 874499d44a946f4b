// The allotted hours of a block: in the others nothing is held, and so nothing delivered or missed.
ghost use Rattle.std.specs.Prelude.{◌≡◌};
ghost use Rattle.tally.specs.States.{hour_at};
ghost use Rattle.book.specs.AllottedHours.{Suffice};
ghost use Rattle.book.specs.Books.{state_of};

use crate::block_hours::BlockHours;
use crate::book::Book;
use crate::places::HourNumber;
use crate::records::{HOURS, HourRecord};
use tariff::blocks::Block;

impl Book {
    // Whether an hour is allotted.
    pub(crate) fn is_allotted(&self, hour: HourNumber) -> bool
        ensures { result ≡ (hour_at (state_of self.now) hour).allotted }
    {
        matches!(self.hour_record(hour), HourRecord::Allotted { .. })
    }

    // The hours of a block that are allotted.
    pub(crate) fn allotted_hours(&self, block: Block) -> BlockHours
        ensures block { result.block ≡ block }
        ensures suffice { Suffice (state_of self.now) result }
    {
        let mut places = [0; HOURS];
        let mut count = 0;
        for place in 0..HOURS {
            let hour = HourNumber::at(place);
            if self.in_block(block, hour) && self.is_allotted(hour) {
                places[count] = place;
                count += 1;
            }
        }
        BlockHours {
            block,
            places,
            count,
        }
    }
}
