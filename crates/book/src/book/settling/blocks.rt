// Sums over the hours of a block.
ghost use Rattle.std.specs.Prelude.{◌≡◌, ℕ, ◌≤◌, ℤ, unsigned_abs};
ghost use Rattle.tally.specs.Settlement.{block_total};
ghost use Rattle.book.specs.Books.{state_of};

use crate::book::Book;
use crate::places::HourNumber;
use crate::records::HOURS;
use tariff::blocks::Block;

impl Book {
    // The sum of a figure over the hours of a block.
    pub(crate) fn block_total<F: Fn(HourNumber) -> i64>(&self, block: Block, figure: F) -> i64
        requires callable { F.IsAlwaysCallable figure }
        requires small { (hour : ℕ) (n : ℤ) → F.post figure hour n → unsigned_abs n ≤ 4000000000000 }
        ensures value { (f : ℕ → ℤ) → ((hour : ℕ) (n : ℤ) → F.post figure hour n → n ≡ f hour)
            → result ≡ block_total (state_of self.now) block f }
        ensures size { unsigned_abs result ≤ 96000000000000 }
    {
        let mut total = 0;
        for place in 0..HOURS {
            let hour = HourNumber::at(place);
            if self.in_block(block, hour) {
                total += figure(hour);
            }
        }
        total
    }
}
