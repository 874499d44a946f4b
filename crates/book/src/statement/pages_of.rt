// Both pages of a statement.
ghost use Rattle.std.specs.Prelude.{◌≡◌, length};
ghost use Rattle.pages.specs.Pages.{page_answer};
ghost use Rattle.tariff.specs.Answers.{told, ◌then◌};
ghost use Rattle.book.specs.LentPages.{heavy_entries, light_entries, SameLenders};
ghost use Rattle.book.specs.SameStatement.{SameStatement};
ghost use Rattle.book.specs.Pages.{statement_on};
ghost use Rattle.book.specs.Payments.{statement_in};

use crate::payment::Payment;
use crate::records::ByParty;
use crate::statement::Statement;
use tariff::refusal::Refusal;

impl Statement<'_, '_, '_, '_> {
    // Tests how many entries the pages have, the heavy block's first.
    pub(crate) fn check(&self) -> Result<(), Refusal>
        ensures { told result
            ≡ (page_answer (length (heavy_entries self.now)) then page_answer (length (light_entries self.now))) }
    {
        self.heavy.check()?;
        self.light.check()
    }

    // Fills both pages whole, each from a table with a row for each seller.
    pub(crate) fn fill(
        &mut self,
        heavy: &ByParty<ByParty<Payment>>,
        light: &ByParty<ByParty<Payment>>,
    )
        requires heavy { length (heavy_entries self.old) ≡ 144 }
        requires light { length (light_entries self.old) ≡ 144 }
        ensures pages { SameStatement (statement_on (heavy_entries self.new) (light_entries self.new))
            (statement_in heavy.now light.now) }
        ensures heavy_count { length (heavy_entries self.new) ≡ length (heavy_entries self.old) }
        ensures light_count { length (light_entries self.new) ≡ length (light_entries self.old) }
        ensures lenders { SameLenders self.old self.new }
    {
        let (Ok(()), Ok(())) = (self.heavy.fill(heavy), self.light.fill(light)) else {
            unreachable!()
        };
    }
}
