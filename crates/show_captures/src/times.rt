//! The texts of instants.

ghost use Rattle.std.specs.Prelude.{◌≡◌, List, ℕ, codes, MatchOption, OnOk};
ghost use Rattle.std.specs.Io.KnownBytes.{Appends};
ghost use Rattle.show_captures.specs.ByOptions.{ShowsTime};
ghost use Rattle.show_captures.specs.Time.{HasText, IsTimeText, IsUtcText};
ghost use Rattle.show_lines.specs.Pieces.{Grows, IfWritten};

use arrayvec::ArrayString;
use jiff_core::Timestamp;
use jiff_fmt::temporal::DateTimePrinter;
use link_capture::Time;
use show_lines::Stop;
use std::io::Write;

/// Writes the line of a time.
pub(crate) fn write_time<W: Write>(time: Time, writer: &mut W) -> Result<(), Stop>
    ensures shown { OnOk result ((out : List ℕ) × ShowsTime time out
        × Appends (W.contents writer.old) (W.contents writer.new) out) }
    ensures pieces { IfWritten result (Grows (W.contents writer.old) (W.contents writer.new)) }
{
    let text = time_text(time);
    let text = text.as_str();
    match writeln!(writer, "time {text}") {
        Ok(()) => Ok(()),
        Err(_) => Err(Stop::Writer),
    }
}

/// Returns the text of an instant, or `out of range` if it has none.
pub(crate) fn time_text(time: Time) -> ArrayString<33>
    ensures { IsTimeText time result.bytes }
{
    match utc_text(time) {
        Some(text) => text,
        None => out_of_range(),
    }
}

/// Returns the text of an instant in UTC, such as `2026-11-27T19:06:35.705255Z`, or `None` before 1970 and after
/// 9999-12-30T22:00:00.999999999Z, the last instant that `jiff` has.
pub fn utc_text(time: Time) -> Option<ArrayString<33>>
    ensures { MatchOption result (¬ HasText time.nanosecond)
        (λ text. HasText time.nanosecond × IsUtcText time text.bytes) }
{
    match timestamp_of(time) {
        Some(timestamp) => Some(
            DateTimePrinter::new()
                .precision(Some(time.digits))
                .timestamp_text(timestamp),
        ),
        None => None,
    }
}

/// Returns an instant, if it has a text.
fn timestamp_of(time: Time) -> Option<Timestamp>
    ensures { MatchOption result (¬ HasText time.nanosecond) (λ t. HasText time.nanosecond × (t.nanosecond ≡ time.nanosecond)) }
{
    if time.nanosecond < 0 {
        return None;
    }
    match Timestamp::from_nanosecond(time.nanosecond) {
        Ok(timestamp) => Some(timestamp),
        Err(_) => None,
    }
}

fn out_of_range() -> ArrayString<33>
    ensures { result.bytes ≡ codes "out of range" }
{
    let mut text = ArrayString::new();
    text.push_str("out of range");
    text
}
