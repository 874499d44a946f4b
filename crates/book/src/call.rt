// One call of a list.
ghost use Rattle.std.specs.Prelude.{◌≡◌};
ghost use Rattle.book.specs.EntryStands.{EntryStands};
ghost use Rattle.book.specs.Playing.{said_by};
ghost use Rattle.book.specs.RuleMoves.{SameRule};
ghost use Rattle.tariff.specs.Answers.{told};

use crate::book::Book;
use crate::entry::Entry;
use crate::payment::Payment;
use crate::statement::Statement;
use pages::page::{PAGE_ENTRIES, Page};
use tariff::division::DivisionRule;
use tariff::refusal::Refusal;
use tariff::source::PriceSource;

// An entry with the source, the rule and the two pages that it brings, and what the call was told.
pub struct Call<S, R> {
    pub entry: Entry,
    pub source: S,
    pub rule: R,
    pub heavy: [Payment; PAGE_ENTRIES],
    pub light: [Payment; PAGE_ENTRIES],
    pub told: Result<(), Refusal>,
}

impl<S: PriceSource, R: DivisionRule> Call<S, R> {
    // Makes the call, and keeps what it was told.
    pub fn make(&mut self, book: &mut Book)
        ensures enters { EntryStands (said_by S.tables R.LIMIT R.moves R.meaning self.old self.new) book.old
            (record { old = self.old.heavy; new = self.new.heavy })
            (record { old = self.old.light; new = self.new.light }) book.new }
        ensures entry { self.new.entry ≡ self.old.entry }
        ensures source { self.new.source ≡ self.old.source }
        ensures same_rule { SameRule self.old.entry (told self.new.told) self.old.rule self.new.rule }
    {
        let mut heavy = Page::new(&mut self.heavy);
        let mut light = Page::new(&mut self.light);
        let mut statement = Statement {
            heavy: &mut heavy,
            light: &mut light,
        };
        self.told = book.enter(self.entry, &self.source, &mut self.rule, &mut statement);
    }
}
