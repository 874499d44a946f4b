// Sums of the parties' figures.
ghost use Rattle.std.specs.Prelude.{◌≡◌, ℕ, ◌+◌, ◌*◌, ◌^◌, ◌<◌, ◌≤◌};
ghost use Rattle.tally.specs.Numbered.{total};
ghost use Rattle.book.specs.Records.{at};

use crate::records::{ByParty, PARTIES};

// What the figures of so many parties come to.
pub(crate) fn total(figures: &ByParty<u64>, parties: usize) -> u64
    requires few { parties ≤ 12 }
    requires small { (party : ℕ) → at 0 figures.now party ≤ 4000000000000 }
    ensures value { result ≡ total (at 0 figures.now) parties }
    ensures size { (most : ℕ) → ((party : ℕ) → at 0 figures.now party ≤ most) → result ≤ 12 * most }
{
    let mut sum = 0;
    for place in 0..parties {
        sum += figures[place];
    }
    sum
}

// What the MW of so many parties come to.
pub(crate) fn total_mw(figures: &ByParty<u16>, parties: usize) -> u32
    requires { parties ≤ 12 }
    ensures value { result ≡ total (at 0 figures.now) parties }
    ensures size { result ≤ 786420 }
{
    let mut sum = 0;
    for place in 0..parties {
        sum += u32::from(figures[place]);
    }
    sum
}

// The figures of each party in two lists together.
pub(crate) fn sums(some: &ByParty<u16>, others: &ByParty<u16>) -> ByParty<u16>
    requires { (party : ℕ) → at 0 some.now party + at 0 others.now party < 2 ^ 16 }
    ensures { at 0 result ≡ (λ party. at 0 some.now party + at 0 others.now party) }
{
    let mut sums = [0; PARTIES];
    for place in 0..PARTIES {
        sums[place] = some[place] + others[place];
    }
    sums
}
