// A division among the parties of a book.
ghost use Rattle.std.specs.Prelude.{◌≡◌, ◌≢◌, ℕ, ◌≤◌, IfOk};
ghost use Rattle.tariff.specs.Answers.{told, granted};
ghost use Rattle.tariff.specs.Division.{Moved, division_answer};
ghost use Rattle.tally.specs.Numbered.{listed, numbered};
ghost use Rattle.book.specs.Records.{at};

use crate::records::{ByParty, PARTIES};
use crate::widths::{narrowed, widened};
use tariff::division::DivisionRule;
use tariff::refusal::Refusal;

// Divides an amount by the claims of so many parties, or passes on that the rule refuses.
pub(crate) fn divide<R: DivisionRule>(
    rule: &mut R,
    amount: u16,
    claims: &ByParty<u16>,
    parties: usize,
) -> Result<ByParty<u16>, Refusal>
    requires { parties ≤ 12 }
    ensures answer { told result ≡ division_answer R.LIMIT amount (listed (at 0 claims.now) parties) parties }
    ensures shares { IfOk result (λ shares. at 0 shares
        ≡ numbered (R.meaning rule.old amount (listed (at 0 claims.now) parties))) }
    ensures within { IfOk result (λ shares. (party : ℕ) → at 0 shares party ≤ amount) }
    ensures moved { Moved R.moves (told result) (R.meaning rule.old) amount (listed (at 0 claims.now) parties)
        (R.meaning rule.new) }
    ensures same { told result ≢ granted → rule.new ≡ rule.old }
{
    let mut shares = [0; PARTIES];
    rule.divide(
        u64::from(amount),
        &widened(claims)[..parties],
        &mut shares[..parties],
    )?;
    Ok(narrowed(&shares))
}
