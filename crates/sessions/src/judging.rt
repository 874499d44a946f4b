// A session is answered, and its answers are compared with those that are expected.
ghost use Rattle.std.specs.Prelude.{IfOk};
ghost use Rattle.sessions.specs.Answers.{AreAnswers};
ghost use Rattle.sessions.specs.Verdicts.{IsJudged};

use crate::comparing::{first_difference, line_count, line_of};
use crate::verdict::Verdict;
use session::serving::{Failure, serve};
use session::session::Session;
use std::alloc::Global;
use std::io;

// What the lines of a text are answered, in a session of their own.
fn answers_to(alloc: Global, text: &[u8]) -> io::Result<Vec<u8>>
    ensures { IfOk result (λ answers. AreAnswers text.now answers.items) }
{
    let mut session = Session::new();
    let mut unread = text;
    let mut answers = Vec::new(alloc);
    match serve(&mut session, &mut unread, &mut answers) {
        Ok(()) => Ok(answers),
        Err(Failure::Reading(e)) => Err(e),
        Err(Failure::Writing(e)) => Err(e),
    }
}

// Answers a text, and compares.
pub fn judge(alloc: Global, text: &[u8], expected: &[u8]) -> io::Result<Verdict>
    ensures { IfOk result (IsJudged text.now expected.now) }
{
    let answers = answers_to(alloc, text)?;
    Ok(match first_difference(&answers, expected) {
        None => Verdict::AsExpected {
            lines: line_count(text),
        },
        Some(place) => Verdict::Differs {
            line: line_of(expected, place),
        },
    })
}
