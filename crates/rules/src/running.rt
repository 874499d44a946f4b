// Running total: a share is what the claims up to this one have reached, less what those before it had.
ghost use Rattle.std.specs.Prelude.{◌≡◌, Some, codes, length};
ghost use Rattle.tariff.specs.Division.{Unmoved};
ghost use Rattle.rules.specs.RunningTotal.{running};
ghost use Rattle.rules.specs.RunningLaw.{running_lawful};

use crate::claims::{Admitted, admit};
use std::fmt;
use tariff::division::DivisionRule;
use tariff::refusal::Refusal;

#[derive(Clone, Copy, Debug, Default, PartialEq, Eq)]
pub struct RunningTotal;

// An impl belongs to one type, so that each rule has its own.
impl fmt::Display for RunningTotal {
    ghost output = { λ _. Some (codes "running total") };

    fn fmt<W: fmt::Write>(&self, f: &mut fmt::Formatter<W>) -> fmt::Result {
        f.write_str("running total")
    }
}

// Writes the shares of a division.
fn share(division: &Admitted, shares: &mut [u64])
    requires { length shares.old ≡ length division.now.claims.now }
    ensures { shares.new ≡ running division.now.total division.now.claims.now }
{
    let mut claimed = 0;
    let mut given = 0;
    // Written by index: after a zip with iter_mut a proof knows nothing of the slice.
    for (i, &claim) in division.claims.iter().enumerate() {
        claimed += claim;
        let reached = division.whole_part(claimed);
        shares[i] = reached - given;
        given = reached;
    }
}

impl DivisionRule for RunningTotal {
    const LIMIT: u64 = 12;

    ghost LIMIT = { 12 };

    ghost meaning = { λ _. running };

    ghost moves = { Unmoved };

    ghost lawful = { λ rule. running_lawful };

    // The same lines in both rules: a helper that takes `share` has a longer contract than they are, and provided by the
    // trait they would need a public call that asks something of its caller.
    fn divide(&mut self, total: u64, claims: &[u64], shares: &mut [u64]) -> Result<(), Refusal> {
        let division = admit(Self::LIMIT, total, claims, shares.len())?;
        share(&division, shares);
        Ok(())
    }
}
