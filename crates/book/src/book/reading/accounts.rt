// What accounts have.
ghost use Rattle.std.specs.Prelude.{unsigned_abs};
ghost use Rattle.tariff.specs.Answers.{Gives, require};
ghost use Rattle.tariff.specs.Figures.{between};
ghost use Rattle.tariff.specs.declared.refusal.Refusal.TheVariants.{Party};
ghost use Rattle.book.specs.Books.{balance, state_of};

use crate::book::Book;
use tariff::refusal::Refusal;

impl Book {
    // What an account has in cents. Account 0 is the pool's, and a party's has its number.
    pub fn balance(&self, account: i64) -> Result<i64, Refusal>
        ensures { Gives (require (between 0 (state_of self.now).set_up.parties account) (Party 1))
            (balance self.now (unsigned_abs account)) result }
    {
        match usize::try_from(account) {
            Ok(place) if place <= self.parties() => Ok(self.balances[place]),
            _ => Err(Refusal::Party { position: 1 }),
        }
    }
}
