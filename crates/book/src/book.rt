// A book.
ghost use Rattle.book.specs.Led.{Led};

use crate::records::{ACCOUNTS, DayRecord, Pool, YearRecord};

mod checks;
mod closing;
mod days;
mod entering;
mod entries;
mod held_hours;
mod pricing;
mod reading;
mod set_up;
mod settling;

// Account 0 is the pool's, and a party's has its number.
#[derive(Drop)]
pub struct Book {
    pub(crate) pool: Pool,
    pub(crate) day: DayRecord,
    pub(crate) year: YearRecord,
    pub(crate) balances: [i64; ACCOUNTS],
    ghost led: { ∥ Led pool day year balances ∥₁ },
}

// A book lies in one block of memory, most of it what allotted hours hold.
const _: () = prove!(size_of::<Book>() <= 30_000);
