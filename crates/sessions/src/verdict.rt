// What the answers to a session are found to be.
ghost use Rattle.std.specs.Prelude.{◌≡◌};
ghost use Rattle.sessions.specs.Verdicts.{finds_no_fault};

use std::fmt;

// All lines were answered as expected, or the answers differ, first in that line of those expected.
#[derive(Clone, Copy, Debug, PartialEq, Eq)]
pub enum Verdict {
    AsExpected { lines: usize },
    Differs { line: usize },
}

impl Verdict {
    pub fn finds_no_fault(self) -> bool
        ensures { result ≡ finds_no_fault self }
    {
        matches!(self, Verdict::AsExpected { .. })
    }
}

impl fmt::Display for Verdict {
    ghost use Rattle.std.specs.Prelude.{Some};
    ghost use Rattle.sessions.specs.Verdicts.{verdict_text};

    ghost output = { λ verdict. Some (verdict_text verdict) };

    fn fmt<W: fmt::Write>(&self, f: &mut fmt::Formatter<W>) -> fmt::Result {
        match self {
            Verdict::AsExpected { lines } => write!(f, "{lines} lines answered as expected"),
            Verdict::Differs { line } => write!(
                f,
                "not answered as expected, first in line {line} of the answers"
            ),
        }
    }
}
