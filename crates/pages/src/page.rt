// A page over a slice that its caller lends.
ghost use Rattle.std.specs.Prelude.{◌≡◌, ℕ, ◌+◌, ◌*◌, ◌<◌, suc, [], ◌++◌, length, take, drop, IfOk, slice_set, slice_index_or};
ghost use Rattle.tariff.specs.Answers.{told, if_granted};
ghost use Rattle.pages.specs.Pages.{page_answer, entry_answer, joined, page_at, place};

use crate::numbers::{check_count, place};
use tariff::refusal::Refusal;

// One entry for each seller and buyer of twelve.
pub const PAGE_ENTRIES: usize = 144;

// Writes the row of a seller, by its place among the sellers.
fn write_row<E: Copy>(entries: &mut [E], seller: usize, row: &[E; 12])
    requires page { length entries.old ≡ 144 }
    requires known { seller < 12 }
    ensures row { length row.now ≡ 12 }
    ensures entries { entries.new ≡ take (seller * 12) entries.old ++ row.now ++ drop (seller * 12 + 12) entries.old }
{
    entries[seller * 12..seller * 12 + 12].copy_from_slice(row);
}

#[derive(Drop)]
pub struct Page<'a, E> {
    entries: &'a mut [E],
}

impl<'a, E: Copy> Page<'a, E> {
    // Takes a slice of any length: a page in a Result would lose sight of the slice that it was lent.
    pub fn new(entries: &'a mut [E]) -> Page<'a, E>
        ensures entries { result.entries.now ≡ entries.old }
        ensures lender { result.entries.ghost_name ≡ entries.entry.ghost_name }
    {
        Page { entries }
    }

    // Tests that there are as many entries as a page has.
    pub fn check(&self) -> Result<(), Refusal>
        ensures { told result ≡ page_answer (length self.now.entries.now) }
    {
        check_count(self.entries.len())
    }

    // The entry of a seller and a buyer.
    pub fn read(&self, seller: u64, buyer: u64) -> Result<E, Refusal>
        ensures answer { told result ≡ entry_answer (length self.now.entries.now) seller buyer }
        ensures value { IfOk result (λ entry. (none : E) → entry ≡ page_at none self.now.entries.now seller buyer) }
    {
        let entries: &[E] = self.entries;
        let place = place(entries.len(), seller, buyer)?;
        Ok(entries[place])
    }

    // Writes the entry of a seller and a buyer.
    pub fn write(&mut self, seller: u64, buyer: u64, entry: E) -> Result<(), Refusal>
        ensures answer { told result ≡ entry_answer (length self.old.entries.now) seller buyer }
        ensures entries { self.new.entries.now ≡ if_granted (told result)
            (slice_set self.old.entries.now (place seller buyer) entry) self.old.entries.now }
        ensures lender { self.new.entries.ghost_name ≡ self.old.entries.ghost_name }
    {
        let place = place(self.entries.len(), seller, buyer)?;
        self.entries[place] = entry;
        Ok(())
    }

    // Writes all entries, from a table with a row for each seller.
    pub fn fill(&mut self, table: &[[E; 12]; 12]) -> Result<(), Refusal>
        ensures answer { told result ≡ page_answer (length self.old.entries.now) }
        ensures entries { self.new.entries.now ≡ if_granted (told result) (joined table.now) self.old.entries.now }
        ensures value { IfOk result (λ _. (none : E) (seller buyer : ℕ) → seller < 12 → buyer < 12
            → page_at none self.new.entries.now (suc seller) (suc buyer)
            ≡ slice_index_or (slice_index_or table.now seller []) buyer none) }
        ensures count { length self.new.entries.now ≡ length self.old.entries.now }
        ensures lender { self.new.entries.ghost_name ≡ self.old.entries.ghost_name }
    {
        self.check()?;
        for (seller, row) in table.iter().enumerate() {
            write_row(self.entries, seller, row);
        }
        Ok(())
    }
}
