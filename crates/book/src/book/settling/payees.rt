// What of a seller's charges goes to the pool and to buyers, and what they come to.
ghost use Rattle.std.specs.Prelude.{◌≡◌, ◌≤◌, ◌<◌, ℕ, pos, if◌then◌else◌, unsigned_abs};
ghost use Rattle.tally.specs.Charges.{cut_charge};
ghost use Rattle.tally.specs.DayPrices.{DayPrices, in_block};
ghost use Rattle.tally.specs.Numbered.{total};
ghost use Rattle.tally.specs.Settlement.{block_total};
ghost use Rattle.tally.specs.States.{hour_at};
ghost use Rattle.tally.specs.Years.{day_charges};
ghost use Rattle.book.specs.Books.{state_of};
ghost use Rattle.book.specs.CutTables.{HasCuts, SmallCuts, payee_part, rows_of};
ghost use Rattle.book.specs.Records.{at, in_row};

use crate::book::Book;
use crate::cut_table::CutTable;
use crate::places::{HourNumber, Party};
use crate::records::{ByHour, ByParty, HOURS};
use crate::sums::total;
use crate::tables::get_in_row;
use tariff::blocks::Block;
use tariff::charges::Cover;

impl Book {
    // What goes in an hour to the payee of misses that are so covered.
    fn part_at(
        &self,
        rows: &ByHour<ByParty<u64>>,
        block: Block,
        cover: Cover,
        seller: Party,
        hour: HourNumber,
        buyer: Party,
    ) -> u64
        requires { SmallCuts rows.now }
        ensures value { let state = state_of self.now in let covered = (hour_at state hour).cover seller buyer in
            pos result ≡ (if in_block state block hour
            then pos (payee_part cover covered (in_row 0 rows.now hour buyer))
            else pos 0) }
        ensures size { result ≤ 4000000000000 }
    {
        if self.in_block(block, hour) && self.hour_record(hour).cover(seller, buyer) == cover {
            get_in_row(&rows[hour.place()], buyer)
        } else {
            0
        }
    }

    // What a seller pays for a buyer in a block to the payee of misses that are so covered, by a table of its charges.
    pub(crate) fn to_payee(
        &self,
        cuts: &CutTable,
        block: Block,
        cover: Cover,
        seller: Party,
        buyer: Party,
    ) -> i64
        requires small { SmallCuts (rows_of cuts.now) }
        requires party { buyer ≤ self.now.pool.parties }
        ensures value { let state = state_of self.now in
            (prices : DayPrices) → HasCuts state prices seller (rows_of cuts.now)
            → result ≡ block_total state block (λ hour. pos
            (payee_part cover ((hour_at state hour).cover seller buyer)
            (cut_charge state prices seller hour buyer))) }
        ensures size { unsigned_abs result ≤ 96000000000000 }
    {
        match cuts {
            CutTable::Nothing => 0,
            CutTable::Cuts { rows } => {
                let mut all = 0;
                for hour in 0..HOURS {
                    all += self.part_at(rows, block, cover, seller, HourNumber::at(hour), buyer);
                }
                all as i64
            }
        }
    }

    // What a seller is charged in the day, by a table of its charges.
    pub(crate) fn day_charges(&self, cuts: &CutTable) -> u64
        requires { SmallCuts (rows_of cuts.now) }
        ensures value { (prices : DayPrices) (seller : ℕ) → HasCuts (state_of self.now) prices seller (rows_of cuts.now)
            → result ≡ day_charges (state_of self.now) prices seller }
        ensures size { result ≤ 1152000000000000 }
    {
        match cuts {
            CutTable::Nothing => 0,
            CutTable::Cuts { rows } => {
                let mut all = 0;
                for hour in 0..HOURS {
                    all += total(&rows[hour], self.parties());
                }
                all
            }
        }
    }
}
