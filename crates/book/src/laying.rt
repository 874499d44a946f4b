// Pairs: holdings laid end to end, and requests beside them.
ghost use Rattle.std.specs.Prelude.{◌≡◌, ℕ};
ghost use Rattle.tally.specs.Numbered.{total, before};
ghost use Rattle.tally.specs.Pairs.{overlap};
ghost use Rattle.book.specs.Records.{at, by_seller};

use crate::records::{ByPair, ByParty, PARTIES};

// What a buyer's stretch has in common with each seller's.
fn lay_buyer(holdings: &ByParty<u16>, start: u32, end: u32) -> ByParty<u16>
    ensures { at 0 result
        ≡ (λ seller. overlap (before (at 0 holdings.now) seller) (total (at 0 holdings.now) seller) start end) }
{
    let mut pairs = [0; PARTIES];
    let mut first = 0;
    for place in 0..PARTIES {
        let last = first + u32::from(holdings[place]);
        pairs[place] = last.min(end).saturating_sub(first.max(start)) as u16;
        first = last;
    }
    pairs
}

// A row of pairs for each buyer.
pub(crate) fn lay(holdings: &ByParty<u16>, requests: &ByParty<u16>) -> ByPair<u16>
    ensures { (seller buyer : ℕ) → by_seller 0 result seller buyer
        ≡ overlap (before (at 0 holdings.now) seller) (total (at 0 holdings.now) seller)
        (before (at 0 requests.now) buyer) (total (at 0 requests.now) buyer) }
{
    let mut rows = [[0; PARTIES]; PARTIES];
    let mut start = 0;
    for place in 0..PARTIES {
        let end = start + u32::from(requests[place]);
        rows[place] = lay_buyer(holdings, start, end);
        start = end;
    }
    rows
}
