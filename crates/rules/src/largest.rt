// Largest remainder: each claim gets its whole part, and the units left go singly to the largest remainders.
ghost use Rattle.std.specs.Prelude.{◌≡◌, ℕ, ◌+◌, ◌^◌, ◌<◌, if◌then◌else◌, Some, codes, length, nat_lt, slice_index};
ghost use Rattle.tariff.specs.Division.{Unmoved};
ghost use Rattle.rules.specs.LargestRemainder.{largest, rank_of, remainder, units_left, whole_part};
ghost use Rattle.rules.specs.LargestLaw.{largest_lawful};

use crate::claims::{Admitted, MOST_PLACES, admit};
use std::cmp::Reverse;
use std::fmt;
use tariff::division::DivisionRule;
use tariff::refusal::Refusal;

#[derive(Clone, Copy, Debug, Default, PartialEq, Eq)]
pub struct LargestRemainder;

// An impl belongs to one type, so that each rule has its own.
impl fmt::Display for LargestRemainder {
    ghost output = { λ _. Some (codes "largest remainder") };

    fn fmt<W: fmt::Write>(&self, f: &mut fmt::Formatter<W>) -> fmt::Result {
        f.write_str("largest remainder")
    }
}

// How many places come before place i: their remainder is larger, or equal and they stand earlier.
#[tactic(auto, using(crate::specs::Counts::count_more))]
fn rank(remainders: &[u64], i: usize) -> u64
    requires { i < length remainders.now }
    ensures { result ≡ rank_of (λ k. slice_index remainders.now k) (length remainders.now) i }
{
    let own = (Reverse(remainders[i]), i);
    let mut count = 0;
    // Over all places, and added up in a loop: to stop where the units are gone, or to filter and count by a chain, branches
    // at each place, and a division then takes two or three times as long.
    for (j, &other) in remainders.iter().enumerate() {
        if (Reverse(other), j) < own {
            count += 1;
        }
    }
    count
}

// Writes the whole parts of a division and their remainders, and returns the units that the whole parts leave.
fn whole_parts(division: &Admitted, shares: &mut [u64], remainders: &mut [u64]) -> u64
    requires places { length shares.old ≡ length division.now.claims.now }
    requires room { length remainders.old ≡ length division.now.claims.now }
    ensures wholes { (k : ℕ) → k < length division.now.claims.now
        → slice_index shares.new k ≡ whole_part division.now.total division.now.claims.now k }
    ensures rests { (k : ℕ) → k < length division.now.claims.now
        → slice_index remainders.new k ≡ remainder division.now.total division.now.claims.now k }
    ensures left { result ≡ units_left division.now.total division.now.claims.now }
{
    let mut left = division.total;
    // Written by index: after a zip with iter_mut a proof knows nothing of the slices.
    for (i, &claim) in division.claims.iter().enumerate() {
        let whole = division.whole_part(claim);
        shares[i] = whole;
        remainders[i] = division.remainder(claim);
        left -= whole;
    }
    left
}

// Gives a unit to each place that fewer places come before than there are units: places with a remainder above 0 alone.
fn give_units(units: u64, remainders: &[u64], shares: &mut [u64])
    requires places { length shares.old ≡ length remainders.now }
    requires above { (k : ℕ) → k < length remainders.now
        → rank_of (λ j. slice_index remainders.now j) (length remainders.now) k < units
        → 0 < slice_index remainders.now k }
    requires room { (k : ℕ) → k < length shares.old → slice_index shares.old k + 1 < 2 ^ 64 }
    ensures { (k : ℕ) → k < length remainders.now → slice_index shares.new k ≡ slice_index shares.old k
        + (if nat_lt (rank_of (λ j. slice_index remainders.now j) (length remainders.now) k) units then 1 else 0) }
{
    // Most divisions leave none, and to compare every two places is most of the work.
    if units == 0 {
        return;
    }
    for (i, share) in shares.iter_mut().enumerate() {
        // A place with no remainder gets none, so it is not compared either.
        if remainders[i] > 0 && rank(remainders, i) < units {
            *share += 1;
        }
    }
}

// Writes the shares of a division.
fn share(division: &Admitted, shares: &mut [u64])
    requires { length shares.old ≡ length division.now.claims.now }
    ensures { shares.new ≡ largest division.now.total division.now.claims.now }
{
    // Fixed memory, no heap: a row for as many claims as any rule takes, of which the front is used.
    let mut row = [0; MOST_PLACES];
    let remainders = &mut row[..shares.len()];
    let left = whole_parts(division, shares, remainders);
    give_units(left, remainders, shares);
}

impl DivisionRule for LargestRemainder {
    const LIMIT: u64 = 10;

    ghost LIMIT = { 10 };

    ghost meaning = { λ _. largest };

    ghost moves = { Unmoved };

    ghost lawful = { λ rule. largest_lawful };

    // The same lines in both rules: a helper that takes `share` has a longer contract than they are, and provided by the
    // trait they would need a public call that asks something of its caller.
    fn divide(&mut self, total: u64, claims: &[u64], shares: &mut [u64]) -> Result<(), Refusal> {
        let division = admit(Self::LIMIT, total, claims, shares.len())?;
        share(&division, shares);
        Ok(())
    }
}
