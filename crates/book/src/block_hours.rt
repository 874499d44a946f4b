// Some hours of a block, and what figures come to over them.
ghost use Rattle.std.specs.Prelude.{◌≡◌, ℕ, ◌<◌, ◌≤◌, suc, ℤ, unsigned_abs, slice_index};
ghost use Rattle.tally.specs.Numbered.{greatest, total_z};
ghost use Rattle.book.specs.Records.{at};

use crate::places::HourNumber;
use crate::records::ByHour;
use tariff::blocks::Block;

// The first `count` places are those of hours; what stands behind them tells nothing.
#[derive(Clone, Copy)]
pub(crate) struct BlockHours {
    pub(crate) block: Block,
    pub(crate) places: ByHour<usize>,
    pub(crate) count: usize,
    pub(crate) ghost few: { count ≤ 24 },
    pub(crate) ghost known: { (k : ℕ) → slice_index places k < 24 },
}

impl BlockHours {
    // The sum of a figure over these hours.
    pub(crate) fn total<F: Fn(HourNumber) -> i64>(&self, figure: F) -> i64
        requires callable { F.IsAlwaysCallable figure }
        requires small { (hour : ℕ) (n : ℤ) → F.post figure hour n → unsigned_abs n ≤ 4000000000000 }
        ensures value { (f : ℕ → ℤ) → ((hour : ℕ) (n : ℤ) → F.post figure hour n → n ≡ f hour)
            → result ≡ total_z (λ k. f (suc (at 0 self.now.places k))) self.now.count }
        ensures size { unsigned_abs result ≤ 96000000000000 }
    {
        let mut total = 0;
        for index in 0..self.count {
            total += figure(HourNumber::at(self.places[index]));
        }
        total
    }

    // The greatest of a figure in these hours.
    pub(crate) fn greatest<F: Fn(HourNumber) -> u16>(&self, figure: F) -> u16
        requires { F.IsAlwaysCallable figure }
        ensures { (f : ℕ → ℕ) → ((hour : ℕ) (n : ℕ) → F.post figure hour n → n ≡ f hour)
            → result ≡ greatest (λ k. f (suc (at 0 self.now.places k))) self.now.count }
    {
        let mut greatest = 0;
        for index in 0..self.count {
            greatest = greatest.max(figure(HourNumber::at(self.places[index])));
        }
        greatest
    }
}
