// What parties hold.
ghost use Rattle.std.specs.Prelude.{unsigned_abs};
ghost use Rattle.tally.specs.Denials.{day_is_open, is_allotted, is_hour_at, is_party_at};
ghost use Rattle.tally.specs.States.{hour_named};
ghost use Rattle.tariff.specs.Answers.{◌then◌, Gives};
ghost use Rattle.book.specs.Books.{state_of};

use crate::book::Book;
use tariff::refusal::Refusal;

impl Book {
    // MW that a party holds in an allotted hour of the open day.
    pub fn holding(&self, hour: i64, party: i64) -> Result<u64, Refusal>
        ensures { Gives (day_is_open (state_of self.now) then is_hour_at (state_of self.now) 1 hour
            then is_party_at (state_of self.now) 2 party then is_allotted (state_of self.now) hour)
            ((hour_named (state_of self.now) hour).holdings (unsigned_abs party)) result }
    {
        self.require_open()?;
        let hour = self.hour(1, hour)?;
        let party = self.party(2, party)?;
        self.require_allotted(hour)?;
        Ok(u64::from(self.hour_record(hour).held(party)))
    }
}
