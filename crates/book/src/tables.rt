// Reads and writes in tables with a row for each buyer.
ghost use Rattle.std.specs.Prelude.{◌≡◌, ℕ, suc, ◌<◌, [], slice_index, slice_index_or};
ghost use Rattle.tally.specs.Numbered.{replaced};
ghost use Rattle.book.specs.Records.{at, by_seller};

use crate::places::Party;
use crate::records::{ByPair, ByParty, PARTIES};

// What a row has for a seller.
pub(crate) fn get_in_row<T: Copy>(row: &ByParty<T>, seller: Party) -> T
    ensures { (none : T) → result ≡ at none row.now seller }
{
    row[seller.place()]
}

// What a table has for a pair.
pub(crate) fn get<T: Copy>(table: &ByPair<T>, seller: Party, buyer: Party) -> T
    ensures { (none : T) → result ≡ by_seller none table.now seller buyer }
{
    get_in_row(&table[buyer.place()], seller)
}

// Writes what a row has for a seller.
#[tactic(auto, using(crate::proofs::Placing::at_set))]
fn put_in_row<T: Copy>(row: &mut ByParty<T>, seller: Party, figure: T)
    ensures { (none : T) → at none row.new ≡ replaced (at none row.old) seller figure }
{
    row[seller.place()] = figure;
}

// Writes what a table has for a pair.
pub(crate) fn put<T: Copy>(table: &mut ByPair<T>, seller: Party, buyer: Party, figure: T)
    ensures { (none : T) → by_seller none table.new
        ≡ replaced (by_seller none table.old) seller
        (replaced (by_seller none table.old seller) buyer figure) }
{
    put_in_row(&mut table[buyer.place()], seller, figure);
}

// What a table has for a seller, by buyer.
#[tactic(auto, using(crate::proofs::PairPages::writing))]
fn column(table: &ByPair<u16>, seller: Party) -> ByParty<u64>
    ensures { (buyer : ℕ) → buyer < 12
        → slice_index result buyer ≡ by_seller 0 table.now seller (suc buyer) }
{
    let mut column = [0; PARTIES];
    for buyer in 0..PARTIES {
        column[buyer] = u64::from(get(table, seller, Party::at(buyer)));
    }
    column
}

// The table with a row for each seller.
#[tactic(auto, using(crate::proofs::PairPages::writing))]
pub(crate) fn turned(table: &ByPair<u16>) -> ByParty<ByParty<u64>>
    ensures { (seller buyer : ℕ) → seller < 12 → buyer < 12
        → slice_index (slice_index_or result seller []) buyer ≡ by_seller 0 table.now (suc seller) (suc buyer) }
{
    let mut rows = [[0; PARTIES]; PARTIES];
    for seller in 0..PARTIES {
        rows[seller] = column(table, Party::at(seller));
    }
    rows
}
