// Any of the ten calls, as an entry.
ghost use Rattle.tariff.specs.Answers.{told};
ghost use Rattle.book.specs.EntryStands.{EntryStands};
ghost use Rattle.book.specs.LentPages.{heavy_change, light_change, SameLenders};
ghost use Rattle.book.specs.RuleMoves.{SameRule};

use crate::book::Book;
use crate::entry::Entry;
use crate::statement::Statement;
use tariff::division::DivisionRule;
use tariff::refusal::Refusal;
use tariff::source::PriceSource;

impl Book {
    // Makes the call that an entry is. Only a close asks the source and fills the statement, and only an allot, a
    // deployment and a close consult the rule.
    pub fn enter<S: PriceSource, R: DivisionRule>(
        &mut self,
        entry: Entry,
        source: &S,
        rule: &mut R,
        statement: &mut Statement<'_, '_, '_, '_>,
    ) -> Result<(), Refusal>
        ensures enters { EntryStands (record {
          entry = entry;
          tables = S.tables source.now;
          most = R.LIMIT;
          moves = R.moves;
          first = R.meaning rule.old;
          last = R.meaning rule.new;
          answered = told result;
        }) self.old
            (heavy_change statement.old statement.new) (light_change statement.old statement.new) self.new }
        ensures lenders { SameLenders statement.old statement.new }
        ensures same_rule { SameRule entry (told result) rule.old rule.new }
    {
        match entry {
            Entry::Open { day, kind, month } => self.open_day(day, kind, month),
            Entry::Result { hour, party, mw } => self.enter_result(hour, party, mw),
            Entry::Offer { hour, party, mw } => self.enter_offer(hour, party, mw),
            Entry::Request { hour, party, mw } => self.enter_request(hour, party, mw),
            Entry::Allot { hour } => self.allot(hour, rule),
            Entry::Deploy { hour, buyer, mw } => self.deploy(hour, buyer, mw, rule),
            Entry::Miss {
                hour,
                seller,
                buyer,
                mwh,
                cover,
            } => self.enter_miss(hour, seller, buyer, mwh, cover),
            Entry::Close => self.close_day(source, rule, statement),
            Entry::Void => self.void_day(),
            Entry::Year => self.start_year(),
        }
    }
}
