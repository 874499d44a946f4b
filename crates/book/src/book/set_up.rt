// Setting up a book.
ghost use Rattle.std.specs.Prelude.{◌≡◌, ◌<◌, IfOk};
ghost use Rattle.tally.specs.States.{fresh, set_up_answer, set_up_of};
ghost use Rattle.tariff.specs.Answers.{told};
ghost use Rattle.book.specs.Begun.{Begun};

use crate::book::Book;
use crate::records::{ACCOUNTS, DayRecord, Pool, YearRecord};
use tariff::refusal::Refusal;

impl Book {
    // A book of so many parties, with the two rates of the ceiling in cents per MW. Every balance is 0.
    pub fn new(parties: i64, full_rate: i64, step_rate: i64) -> Result<Book, Refusal>
        ensures answer { told result ≡ set_up_answer parties full_rate step_rate }
        ensures begun { IfOk result (Begun (set_up_of parties full_rate step_rate)) }
    {
        let pool = Pool::new(parties, full_rate, step_rate)?;
        Ok(Book {
            pool,
            day: DayRecord::none(),
            year: YearRecord::fresh(),
            balances: [0; ACCOUNTS],
        })
    }
}
