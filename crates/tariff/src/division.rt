// A rule that divides an amount among claims.
ghost use Rattle.std.specs.Prelude.{◌≡◌, ◌≢◌, ℕ, List};
ghost use Rattle.tariff.specs.Answers.{granted, told};
ghost use Rattle.tariff.specs.Division.{Division, Divided, LawfulRule};

use crate::refusal::Refusal;

pub trait DivisionRule {
    // The greatest number of claims above 0 that the rule takes; no call moves it.
    const LIMIT: u64;

    ghost LIMIT: { ℕ };

    // The division that the rule would give now to every amount and claims that it accepts.
    ghost meaning: { Self → Division };

    // What an accepted division of an amount among claims may make of the meaning.
    ghost moves: { Division → ℕ → List ℕ → Division → Type 0 };

    // The limit, for callers at run time.
    fn most_claims() -> u64
        ensures { result ≡ LIMIT }
    {
        Self::LIMIT
    }

    // Writes the shares of `total` among `claims`, or refuses and alters neither the rule nor the shares.
    fn divide(&mut self, total: u64, claims: &[u64], shares: &mut [u64]) -> Result<(), Refusal>
        ensures divided { Divided LIMIT moves (meaning self.old) total claims.now shares.old
            (told result) shares.new (meaning self.new) }
        ensures same { told result ≢ granted → self.new ≡ self.old };

    ghost lawful: { (rule : Self) → LawfulRule LIMIT (meaning rule) };
}
