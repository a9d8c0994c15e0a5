//! Instants in documents.

ghost use Rattle.std.specs.Prelude.{◌≡◌, ◌++◌, ◌∷◌, [], OnOk, codes};
ghost use Rattle.json.specs.Tree.{json_tokens};
ghost use Rattle.show_json.specs.Clock.{ShowsClock, clock_json};

use arrayvec::ArrayString;
use link_capture::Time;
use link_json::{Document, write_number_field};
use show_captures::utc_text;
use std::alloc::AllocError;

/// Nanoseconds in a second.
const SECOND: u128 = 1_000_000_000;

/// What a clock shows, if an instant has a text.
#[derive(Clone, Copy)]
pub(crate) struct Clock {
    /// Its text in UTC.
    pub(crate) utc: ArrayString<33>,
    /// The seconds since 1970-01-01 00:00 UTC.
    pub(crate) seconds: u64,
    /// The nanoseconds of the next second.
    pub(crate) nanoseconds: u64,
}

/// Returns what a clock shows at an instant, or `None` if it is out of range.
pub(crate) fn clock_of(time: Time) -> Option<Clock>
    ensures { ShowsClock time (clock_json result) }
{
    let utc = utc_text(time)?;
    let nanosecond = time.nanosecond.unsigned_abs();
    Some(Clock {
        utc,
        seconds: (nanosecond / SECOND) as u64,
        nanoseconds: (nanosecond % SECOND) as u64,
    })
}

/// Writes an instant, or null.
pub(crate) fn write_clock(doc: &mut Document, clock: &Option<Clock>) -> Result<(), AllocError>
    ensures { OnOk result (doc.new ≡ doc.old ++ json_tokens (clock_json clock.now)) }
{
    match clock {
        Some(clock) => {
            doc.begin_object()?;
            doc.key("utc")?;
            doc.string(clock.utc.as_str())?;
            write_number_field(doc, "sec", clock.seconds)?;
            write_number_field(doc, "nsec", clock.nanoseconds)?;
            doc.end_object()
        }
        None => doc.null(),
    }
}
