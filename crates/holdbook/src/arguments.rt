// What the arguments ask for.
ghost use Rattle.holdbook.specs.Arguments.{AskedBy};

// What the program is asked to do.
pub enum Asked<'a> {
    Help,
    Session(&'a [String]),
    Unknown(&'a str),
}

// The first argument that begins with a hyphen decides; without one, all are names of files.
pub fn asked_by(arguments: &[String]) -> Asked<'_>
    ensures { AskedBy arguments.now result }
{
    for argument in arguments {
        if argument.starts_with('-') {
            return if argument.as_str() == "--help" {
                Asked::Help
            } else {
                Asked::Unknown(argument)
            };
        }
    }
    Asked::Session(arguments)
}
