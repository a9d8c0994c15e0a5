//! The command-line arguments.

ghost use Rattle.std.specs.Prelude.{◌≡◌};
ghost use Rattle.nlroute.specs.Arguments.{only_behind_program};

/// Returns the argument after the program's name, or `None` if there is not exactly one.
pub(crate) fn only(mut arguments: Vec<String>) -> Option<String>
    ensures { result ≡ only_behind_program arguments.items }
{
    if arguments.len() == 2 {
        arguments.pop()
    } else {
        None
    }
}
