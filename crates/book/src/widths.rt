// Rows of narrow figures as rules take them, and back.
ghost use Rattle.std.specs.Prelude.{◌≡◌, ℕ, ◌≤◌};
ghost use Rattle.book.specs.Records.{at};

use crate::records::{ByParty, PARTIES};

// The same figures, wide.
pub(crate) fn widened(figures: &ByParty<u16>) -> ByParty<u64>
    ensures { at 0 result ≡ at 0 figures.now }
{
    let mut wide = [0; PARTIES];
    for place in 0..PARTIES {
        wide[place] = u64::from(figures[place]);
    }
    wide
}

// The same figures, narrow.
pub(crate) fn narrowed(figures: &ByParty<u64>) -> ByParty<u16>
    requires { (party : ℕ) → at 0 figures.now party ≤ 65535 }
    ensures { at 0 result ≡ at 0 figures.now }
{
    let mut narrow = [0; PARTIES];
    for place in 0..PARTIES {
        narrow[place] = figures[place] as u16;
    }
    narrow
}
