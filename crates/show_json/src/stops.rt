//! Failures of documents, as those of a run.

ghost use Rattle.std.specs.Prelude.{◌≡◌};
ghost use Rattle.show_json.specs.Stop.{stopped};

use link_json::Failure;
use show_lines::Stop;

/// Returns what a call that writes documents returns, as a run does.
pub(crate) fn stopped<T>(written: Result<T, Failure>) -> Result<T, Stop>
    ensures { result ≡ stopped written }
{
    match written {
        Ok(value) => Ok(value),
        Err(Failure::Memory) => Err(Stop::Memory),
        Err(Failure::Writer) => Err(Stop::Writer),
    }
}
