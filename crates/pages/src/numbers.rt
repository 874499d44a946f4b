// Where the entry of a seller and a buyer stands on a page.
ghost use Rattle.std.specs.Prelude.{◌≡◌};
ghost use Rattle.tariff.specs.Answers.{told, Gives};
ghost use Rattle.pages.specs.Pages.{is_party, page_answer, entry_answer, place};

use crate::page::PAGE_ENTRIES;
use tariff::refusal::Refusal;

fn is_party(number: u64) -> bool
    ensures { result ≡ is_party number }
{
    1 <= number && number <= 12
}

// Tests how many entries a page has.
pub(crate) fn check_count(count: usize) -> Result<(), Refusal>
    ensures { told result ≡ page_answer count }
{
    if count != PAGE_ENTRIES {
        return Err(Refusal::PageSize {
            count: count as u64,
        });
    }
    Ok(())
}

// The place of an entry on a page of so many entries.
pub(crate) fn place(count: usize, seller: u64, buyer: u64) -> Result<usize, Refusal>
    ensures { Gives (entry_answer count seller buyer) (place seller buyer) result }
{
    check_count(count)?;
    if !is_party(seller) {
        return Err(Refusal::Party { position: 1 });
    }
    if !is_party(buyer) {
        return Err(Refusal::Party { position: 2 });
    }
    Ok(((seller - 1) * 12 + (buyer - 1)) as usize)
}
