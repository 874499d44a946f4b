// One session through all input.
ghost use Rattle.holdbook.specs.Runs.{OneAnswered, RunAnswered};

use crate::problem::Problem;
use session::serving::serve;
use session::session::Session;
use std::fs::File;
use std::io::{Read, Write};
use std::rt::Files;

// Answers the lines of an input that has a name.
fn answer_input<'a, I: Read, W: Write>(
    session: &mut Session,
    name: &'a str,
    input: &mut I,
    writer: &mut W,
) -> Result<(), Problem<'a>>
    ensures { OneAnswered name.now session.old session.new result (W.contents writer.old) (W.contents writer.new) }
{
    match serve(session, input, writer) {
        Ok(()) => Ok(()),
        Err(failure) => Err(Problem::of(name, failure)),
    }
}

// Answers the lines of the named files, in order, or of standard input where none is named.
pub fn answer<'a, R: Files + Input, W: Write>(
    rt: &R,
    names: &'a [String],
    writer: &mut W,
) -> Result<(), Problem<'a>>
    ensures { RunAnswered names.now result (W.contents writer.old) (W.contents writer.new) }
{
    let mut session = Session::new();
    if names.is_empty() {
        return answer_input(&mut session, "standard input", &mut rt.reader(), writer);
    }
    for name in names {
        match File::open(rt, name) {
            Ok(mut file) => answer_input(&mut session, name, &mut file, writer)?,
            Err(error) => return Err(Problem::Input { name, error }),
        }
    }
    Ok(())
}
