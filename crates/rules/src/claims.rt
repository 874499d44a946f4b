// The claims of a division: when a rule refuses them, and what a division that is admitted keeps.
ghost use Rattle.std.specs.Prelude.{◌≡◌, ◌*◌, ◌/◌, ◌%◌, ◌^◌, ◌<◌, ◌≤◌, IfOk, length, sum};
ghost use Rattle.rules.specs.declared.claims.TheConstants.{MOST_CLAIM, MOST_PLACES, MOST_TOTAL};
ghost use Rattle.tariff.specs.Answers.{told};
ghost use Rattle.tariff.specs.Division.{above_zero, all_within, division_answer};

use tariff::refusal::Refusal;

pub(super) const MOST_PLACES: usize = 12;

const MOST_TOTAL: u64 = 1_000_000_000_000;

const MOST_CLAIM: u64 = 500_000;

// A total and claims that a rule accepts, and what the claims come to. The shares are no part of it: a struct made of both
// for each call would be longer than the clause that there are as many.
#[derive(Clone, Copy, Debug, PartialEq, Eq)]
pub(super) struct Admitted<'a> {
    pub(super) total: u64,
    pub(super) claims: &'a [u64],
    all: u64,
    ghost few: { length claims.now ≤ MOST_PLACES },
    ghost amount: { total ≤ MOST_TOTAL },
    ghost summed: { all ≡ sum claims.now },
    ghost within: { all ≤ MOST_PLACES * MOST_CLAIM },
    ghost claimed: { all ≡ 0 → total ≡ 0 },
}

impl Admitted<'_> {
    // The whole part of total × claimed / (all claims). Where these come to 0, so does the total, and 1 stands for them.
    pub(super) fn whole_part(&self, claimed: u64) -> u64
        requires { claimed ≤ sum self.now.claims.now }
        ensures { result ≡ self.now.total * claimed / sum self.now.claims.now }
    {
        self.total * claimed / self.all.max(1)
    }

    // Its remainder.
    pub(super) fn remainder(&self, claimed: u64) -> u64
        requires { claimed ≤ sum self.now.claims.now }
        ensures { result ≡ self.now.total * claimed % sum self.now.claims.now }
    {
        self.total * claimed % self.all.max(1)
    }
}

// Whether each claim is within its limit.
fn all_within(claims: &[u64]) -> bool
    ensures { result ≡ all_within claims.now }
{
    claims.iter().all(|claim| *claim <= MOST_CLAIM)
}

// What the claims come to.
fn total_of(claims: &[u64]) -> u64
    requires { sum claims.now < 2 ^ 64 }
    ensures { result ≡ sum claims.now }
{
    claims.iter().sum()
}

// How many claims are above 0.
fn above_zero(claims: &[u64]) -> u64
    requires { length claims.now ≤ MOST_PLACES }
    ensures { result ≡ above_zero claims.now }
{
    // A sum of 0s and 1s: a filter that is counted branches at each claim, and where some claims are 0 and others are not,
    // a division then takes up to half as long again.
    claims.iter().map(|claim| u64::from(*claim > 0)).sum()
}

// Tests whether a rule that takes `most` claims above 0 divides `total` among `claims` into so many places.
#[tactic(auto, using(crate::specs::Accepting::sum_within))]
pub(super) fn admit<'a>(
    most: u64,
    total: u64,
    claims: &'a [u64],
    places: usize,
) -> Result<Admitted<'a>, Refusal>
    ensures answer { told result ≡ division_answer most total claims.now places }
    ensures division { IfOk result (λ it. (it.total ≡ total) × (it.claims.now ≡ claims.now)
        × (length claims.now ≡ places)) }
{
    if claims.len() != places || places > MOST_PLACES {
        return Err(Refusal::ShareLists);
    }
    if total > MOST_TOTAL || !all_within(claims) {
        return Err(Refusal::DivisionFigure);
    }
    let all = total_of(claims);
    if total > 0 && all == 0 {
        return Err(Refusal::NoClaims);
    }
    let count = above_zero(claims);
    if count > most {
        return Err(Refusal::TooManyClaims { count, limit: most });
    }
    Ok(Admitted { total, claims, all })
}
