// The pairs of an hour on a page.
ghost use Rattle.std.specs.Prelude.{◌≡◌, ◌≢◌, length, IfOk, unsigned_abs};
ghost use Rattle.tally.specs.Pairs.{pair};
ghost use Rattle.tally.specs.States.{hour_named};
ghost use Rattle.tariff.specs.Answers.{granted, told};
ghost use Rattle.book.specs.Books.{pairs_at, state_of};
ghost use Rattle.book.specs.PairPages.{HasPairs, pairs_answer};

use crate::book::Book;
use crate::records::HourRecord;
use crate::tables::turned;
use pages::page::Page;
use tariff::refusal::Refusal;

impl Book {
    // Fills a page with the MW of an allotted hour's pairs, one seller's row after another.
    pub fn fill_pairs(&self, hour: i64, page: &mut Page<'_, u64>) -> Result<(), Refusal>
        ensures answer { told result ≡ pairs_answer (state_of self.now) hour (length page.old.entries.now) }
        ensures pairs { IfOk result (λ _. HasPairs (pairs_at self.now (unsigned_abs hour)) page.new.entries.now) }
        ensures laid { IfOk result (λ _. HasPairs (pair (hour_named (state_of self.now) hour)) page.new.entries.now) }
        ensures same { told result ≢ granted → page.new.entries.now ≡ page.old.entries.now }
        ensures count { length page.new.entries.now ≡ length page.old.entries.now }
        ensures lender { page.new.entries.ghost_name ≡ page.old.entries.ghost_name }
    {
        page.check()?;
        self.require_open()?;
        let hour = self.hour(1, hour)?;
        match self.hour_record(hour) {
            HourRecord::Unallotted { .. } => Err(Refusal::HourNotAllotted {
                hour: hour.number(),
            }),
            HourRecord::Allotted { held, .. } => page.fill(&turned(&held.pairs)),
        }
    }

    // Fills a page that stands in the caller's slice.
    pub fn fill_pairs_in(&self, hour: i64, entries: &mut [u64]) -> Result<(), Refusal>
        ensures answer { told result ≡ pairs_answer (state_of self.now) hour (length entries.old) }
        ensures pairs { IfOk result (λ _. HasPairs (pairs_at self.now (unsigned_abs hour)) entries.new) }
        ensures laid { IfOk result (λ _. HasPairs (pair (hour_named (state_of self.now) hour)) entries.new) }
        ensures same { told result ≢ granted → entries.new ≡ entries.old }
    {
        self.fill_pairs(hour, &mut Page::new(entries))
    }
}
