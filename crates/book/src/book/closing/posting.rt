// The postings of a statement to the accounts.
ghost use Rattle.std.specs.Prelude.{◌≡◌, ℕ, ◌<◌, ◌≤◌, pos, ◌+ℤ◌, unsigned_abs, slice_index_or};
ghost use Rattle.tally.specs.Statements.{net};
ghost use Rattle.book.specs.Payments.{statement_in};
ghost use Rattle.book.specs.Posting.{SmallStatement};

use crate::book::closing::netting::net;
use crate::payment::Payment;
use crate::records::{ACCOUNTS, ByParty};

// Adds to each account's balance what a statement pays to it, less what it takes from it.
pub(crate) fn post(
    balances: &mut [i64; ACCOUNTS],
    parties: usize,
    heavy: &ByParty<ByParty<Payment>>,
    light: &ByParty<ByParty<Payment>>,
)
    requires few { parties ≤ 12 }
    requires small { SmallStatement parties (statement_in heavy.now light.now) }
    requires fits { (account : ℕ) → account ≤ parties → unsigned_abs (slice_index_or balances.old account (pos 0)
        +ℤ net parties (statement_in heavy.now light.now) account) ≤ 4000000000000000000 }
    ensures posted { (account : ℕ) → account ≤ parties → slice_index_or balances.new account (pos 0)
        ≡ slice_index_or balances.old account (pos 0) +ℤ net parties (statement_in heavy.now light.now) account }
    ensures others { (account : ℕ) → parties < account
        → slice_index_or balances.new account (pos 0) ≡ slice_index_or balances.old account (pos 0) }
{
    for account in 0..=parties {
        balances[account] += net(parties, heavy, light, account);
    }
}
