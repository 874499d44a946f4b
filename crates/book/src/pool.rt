// A pool's parties and rates.
ghost use Rattle.std.specs.Prelude.{◌≡◌, IfOk};
ghost use Rattle.tally.specs.States.{Proper, set_up_answer, set_up_of};
ghost use Rattle.tariff.specs.Answers.{told};
ghost use Rattle.book.specs.Records.{set_up_in};

use crate::records::{PARTIES, Pool};
use tariff::refusal::Refusal;

// Cents per MW, at most.
const MOST_RATE: u64 = 100_000_000;

impl Pool {
    // Tests parties and rates, which an entry gives.
    #[tactic(auto, using(tally::proofs::SetUps::accepted_set_ups_proper_lem))]
    pub(crate) fn new(parties: i64, full_rate: i64, step_rate: i64) -> Result<Pool, Refusal>
        ensures answer { told result ≡ set_up_answer parties full_rate step_rate }
        ensures value { IfOk result (λ pool. set_up_in pool ≡ set_up_of parties full_rate step_rate) }
        ensures proper { IfOk result (λ pool. Proper (set_up_in pool)) }
    {
        let Ok(parties @ 2..=PARTIES) = usize::try_from(parties) else {
            return Err(Refusal::Parties);
        };
        match (u64::try_from(full_rate), u64::try_from(step_rate)) {
            (Ok(full_rate @ 0..=MOST_RATE), Ok(step_rate)) if step_rate <= full_rate => Ok(Pool {
                parties,
                full_rate,
                step_rate,
            }),
            _ => Err(Refusal::Rates),
        }
    }
}
