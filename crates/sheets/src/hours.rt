// The hours of an entry.
ghost use Rattle.std.specs.Prelude.{◌≡◌, ◌≤◌, IfOk, unsigned_abs};
ghost use Rattle.tariff.specs.Answers.{told};
ghost use Rattle.sheets.specs.Sheets.{hours_answer};

use tariff::refusal::Refusal;

// From the first to the last.
#[derive(Clone, Copy, Debug, PartialEq, Eq)]
pub(crate) struct Hours {
    pub(crate) first: usize,
    pub(crate) last: usize,
    ghost low: { 1 ≤ first },
    ghost order: { first ≤ last },
    ghost high: { last ≤ 24 },
}

impl Hours {
    // The first and the last hour of an entry, or a refusal that names the one at fault.
    pub(crate) fn enter(first: i64, last: i64) -> Result<Hours, Refusal>
        ensures answer { told result ≡ hours_answer first last }
        ensures value { IfOk result (λ hours. (hours.first ≡ unsigned_abs first) × (hours.last ≡ unsigned_abs last)) }
    {
        // place_of is for an hour that is asked for; these have a sign, and the last is tested against the first.
        let Ok(first @ 1..=24) = usize::try_from(first) else {
            return Err(Refusal::Hour { position: 1 });
        };
        match usize::try_from(last) {
            Ok(last) if (first..=24).contains(&last) => Ok(Hours { first, last }),
            _ => Err(Refusal::Hour { position: 2 }),
        }
    }
}
