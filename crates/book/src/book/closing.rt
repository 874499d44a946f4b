// Closing a day.
ghost use Rattle.std.specs.Prelude.{◌≡◌, ◌≢◌, IfOk, length};
ghost use Rattle.tariff.specs.Answers.{told, granted};
ghost use Rattle.book.specs.Books.{state_of};
ghost use Rattle.book.specs.Closings.{SettledBy, close_answer};
ghost use Rattle.book.specs.EntryStands.{EntryMade};
ghost use Rattle.book.specs.LentPages.{heavy_entries, light_entries, heavy_change, light_change, SameLenders};

use crate::book::Book;
use crate::book::closing::posting::post;
use crate::book::settling::Settled;
use crate::entry::Entry;
use crate::statement::Statement;
use tariff::division::DivisionRule;
use tariff::refusal::Refusal;
use tariff::source::PriceSource;

mod netting;
mod posting;
mod year;

impl Book {
    // What a close comes to, once all its tests are passed: only then does the rule divide.
    fn closing<S: PriceSource, R: DivisionRule>(
        &self,
        source: &S,
        rule: &mut R,
        statement: &Statement<'_, '_, '_, '_>,
    ) -> Result<Settled, Refusal>
        ensures answer { told result ≡ close_answer (state_of self.now) (S.tables source.now) R.LIMIT
            (length (heavy_entries statement.now)) (length (light_entries statement.now)) }
        ensures same_rule { told result ≢ granted → rule.new ≡ rule.old }
        ensures settled { IfOk result (λ settled. SettledBy (S.tables source.now) R.LIMIT R.moves (state_of self.now)
            (R.meaning rule.old) settled.heavy settled.light settled.charges (R.meaning rule.new)) }
    {
        statement.check()?;
        self.require_open()?;
        let prices = self.price(source)?;
        let shares = self.share_both(&prices, rule)?;
        Ok(self.settle(&prices, &shares))
    }

    // Settles the open day by a source's prices, fills both pages of the statement, and posts every payment to both
    // balances.
    #[inline(never)]
    pub fn close_day<S: PriceSource, R: DivisionRule>(
        &mut self,
        source: &S,
        rule: &mut R,
        statement: &mut Statement<'_, '_, '_, '_>,
    ) -> Result<(), Refusal>
        ensures did { EntryMade (record {
          entry = Entry.Close;
          tables = S.tables source.now;
          most = R.LIMIT;
          moves = R.moves;
          first = R.meaning rule.old;
          last = R.meaning rule.new;
          answered = told result;
        }) self.old
            (heavy_change statement.old statement.new) (light_change statement.old statement.new) self.new }
        ensures lenders { SameLenders statement.old statement.new }
        ensures same_rule { told result ≢ granted → rule.new ≡ rule.old }
    {
        let settled = self.closing(source, rule, statement)?;
        statement.fill(&settled.heavy, &settled.light);
        let year = self.closed_year(&settled.charges);
        let parties = self.parties();
        post(&mut self.balances, parties, &settled.heavy, &settled.light);
        self.year = year;
        self.day.is_open = false;
        Ok(())
    }
}
