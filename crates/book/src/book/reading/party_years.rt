// What a party's program year stands at.
ghost use Rattle.std.specs.Prelude.{unsigned_abs};
ghost use Rattle.tally.specs.Denials.{is_party_at};
ghost use Rattle.tariff.specs.Answers.{Gives};
ghost use Rattle.book.specs.Books.{state_of};
ghost use Rattle.book.specs.PartyYears.{party_year_of};

use crate::book::Book;
use crate::party_year::PartyYear;
use tariff::refusal::Refusal;

impl Book {
    // A party's failure days and charges so far, and its ceiling as it stands, by closed days alone.
    pub fn party_year(&self, party: i64) -> Result<PartyYear, Refusal>
        ensures { Gives (is_party_at (state_of self.now) 1 party)
            (party_year_of (state_of self.now) (unsigned_abs party)) result }
    {
        let party = self.party(1, party)?;
        Ok(PartyYear {
            failure_days: self.year.failure_days[party.place()],
            charges: self.year.charges[party.place()],
            ceiling: self.ceiling_of(&self.year.misses[party.place()]),
        })
    }
}
