// What can keep the program from its work.
ghost use Rattle.std.specs.Prelude.{◌≡◌};
ghost use Rattle.holdbook.specs.Problems.{problem_of, problem_text};

use session::serving::Failure;
use std::{fmt, io};

#[derive(Drop)]
pub enum Problem<'a> {
    Option(&'a str),
    Input { name: &'a str, error: io::Error },
    Output(io::Error),
    Arguments(io::Error),
}

impl<'a> Problem<'a> {
    // What kept a session from going on with the input of that name.
    pub fn of(name: &'a str, failure: Failure) -> Problem<'a>
        ensures { result ≡ problem_of name.entry failure }
    {
        match failure {
            Failure::Reading(error) => Problem::Input { name, error },
            Failure::Writing(error) => Problem::Output(error),
        }
    }
}

impl fmt::Display for Problem<'_> {
    ghost output = { problem_text };

    fn fmt<W: fmt::Write>(&self, f: &mut fmt::Formatter<W>) -> fmt::Result {
        match self {
            Problem::Option(option) => write!(
                f,
                "unknown option '{option}'\ntry 'holdbook --help'"
            ),
            Problem::Input { name, error } => write!(f, "{name}: {error}"),
            Problem::Output(error) => write!(f, "standard output: {error}"),
            Problem::Arguments(error) => write!(f, "arguments: {error}"),
        }
    }
}
