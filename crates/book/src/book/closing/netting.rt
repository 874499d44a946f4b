// What a statement comes to for each account.
ghost use Rattle.std.specs.Prelude.{◌≡◌, ◌<◌, ◌≤◌, unsigned_abs};
ghost use Rattle.tally.specs.Numbered.{total_z};
ghost use Rattle.tally.specs.SizeLaws.{SmallPayment};
ghost use Rattle.tally.specs.Statements.{buyer_pays, net, seller_pays};
ghost use Rattle.book.specs.Payments.{payment_of, payments_in, statement_in};
ghost use Rattle.book.specs.Posting.{SmallRow, SmallPage, SmallStatement};
ghost use Rattle.book.specs.Posting.{buyer_gets, entries_in, party_gets, seller_gets};

use crate::payment::Payment;
use crate::places::Party;
use crate::records::ByParty;

// What the buyer pays by a payment.
fn buyer_pays(payment: Payment) -> i64
    requires { SmallPayment (payment_of payment) }
    ensures value { result ≡ buyer_pays (payment_of payment) }
    ensures size { unsigned_abs result ≤ 60000000000000 }
{
    payment.holdback + payment.energy + payment.make_whole
}

// What the seller pays by a payment.
fn seller_pays(payment: Payment) -> i64
    requires { SmallPayment (payment_of payment) }
    ensures value { result ≡ seller_pays (payment_of payment) }
    ensures size { unsigned_abs result ≤ 40000000000000 }
{
    payment.to_pool + payment.to_buyer
}

// What the seller gets by a payment, less what it pays.
fn seller_gets(payment: Payment) -> i64
    requires { SmallPayment (payment_of payment) }
    ensures value { result ≡ seller_gets (payment_of payment) }
    ensures size { unsigned_abs result ≤ 100000000000000 }
{
    buyer_pays(payment) - seller_pays(payment)
}

// What the buyer gets by a payment, less what it pays.
fn buyer_gets(payment: Payment) -> i64
    requires { SmallPayment (payment_of payment) }
    ensures value { result ≡ buyer_gets (payment_of payment) }
    ensures size { unsigned_abs result ≤ 100000000000000 }
{
    payment.to_buyer - buyer_pays(payment)
}

// What the pool gets by a payment.
fn pool_gets(payment: Payment) -> i64
    requires { SmallPayment (payment_of payment) }
    ensures value { result ≡ (payment_of payment).to_pool }
    ensures size { unsigned_abs result ≤ 20000000000000 }
{
    payment.to_pool
}

// What a seller gets by its row.
fn row_to_seller(row: &ByParty<Payment>, parties: usize) -> i64
    requires few { parties ≤ 12 }
    requires small { SmallRow parties (entries_in row.now) }
    ensures value { result ≡ total_z (λ buyer. seller_gets (entries_in row.now buyer)) parties }
    ensures size { unsigned_abs result ≤ 1200000000000000 }
{
    let mut sum = 0;
    for payment in &row[..parties] {
        sum += seller_gets(*payment);
    }
    sum
}

// What the pool gets by a seller's row.
fn row_to_pool(row: &ByParty<Payment>, parties: usize) -> i64
    requires few { parties ≤ 12 }
    requires small { SmallRow parties (entries_in row.now) }
    ensures value { result ≡ total_z (λ buyer. (entries_in row.now buyer).to_pool) parties }
    ensures size { unsigned_abs result ≤ 240000000000000 }
{
    let mut sum = 0;
    for payment in &row[..parties] {
        sum += pool_gets(*payment);
    }
    sum
}

// What a buyer gets by its entry in a row.
fn entry_to_buyer(row: &ByParty<Payment>, buyer: Party) -> i64
    requires { SmallPayment (entries_in row.now buyer) }
    ensures value { result ≡ buyer_gets (entries_in row.now buyer) }
    ensures size { unsigned_abs result ≤ 100000000000000 }
{
    buyer_gets(row[buyer.place()])
}

// What a buyer gets by its entries in a table.
fn table_to_buyer(table: &ByParty<ByParty<Payment>>, parties: usize, buyer: Party) -> i64
    requires few { parties ≤ 12 }
    requires is_party { buyer ≤ parties }
    requires small { SmallPage parties (payments_in table.now) }
    ensures value { result
        ≡ total_z (λ seller. buyer_gets (payments_in table.now seller buyer)) parties }
    ensures size { unsigned_abs result ≤ 1200000000000000 }
{
    let mut sum = 0;
    for row in &table[..parties] {
        sum += entry_to_buyer(row, buyer);
    }
    sum
}

// What the pool gets by a table.
fn table_to_pool(table: &ByParty<ByParty<Payment>>, parties: usize) -> i64
    requires few { parties ≤ 12 }
    requires small { SmallPage parties (payments_in table.now) }
    ensures value { result
        ≡ total_z (λ seller. total_z (λ buyer. (payments_in table.now seller buyer).to_pool) parties) parties }
    ensures size { unsigned_abs result ≤ 2880000000000000 }
{
    let mut sum = 0;
    for row in &table[..parties] {
        sum += row_to_pool(row, parties);
    }
    sum
}

// What a party gets by a table, as a seller and as a buyer, less what it pays.
fn table_to_party(table: &ByParty<ByParty<Payment>>, parties: usize, party: Party) -> i64
    requires few { parties ≤ 12 }
    requires is_party { party ≤ parties }
    requires small { SmallPage parties (payments_in table.now) }
    ensures value { result ≡ party_gets parties (payments_in table.now) party }
    ensures size { unsigned_abs result ≤ 2400000000000000 }
{
    row_to_seller(&table[party.place()], parties) + table_to_buyer(table, parties, party)
}

// What a statement pays to an account less what it takes from it. Account 0 is the pool's.
pub(crate) fn net(
    parties: usize,
    heavy: &ByParty<ByParty<Payment>>,
    light: &ByParty<ByParty<Payment>>,
    account: usize,
) -> i64
    requires few { parties ≤ 12 }
    requires is_account { account ≤ parties }
    requires small { SmallStatement parties (statement_in heavy.now light.now) }
    ensures value { result ≡ net parties (statement_in heavy.now light.now) account }
    ensures size { unsigned_abs result ≤ 10000000000000000 }
{
    match account.checked_sub(1) {
        None => table_to_pool(heavy, parties) + table_to_pool(light, parties),
        Some(place) => {
            let party = Party::at(place);
            table_to_party(heavy, parties, party) + table_to_party(light, parties, party)
        }
    }
}
