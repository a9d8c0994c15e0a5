//! Produces the output for an input line in the debug form.

ghost use Rattle.std.specs.Prelude.{◌≡◌, ◌++◌, Ok, IfOk};
ghost use Rattle.std.specs.Io.KnownBytes.{Appends, Keeps};
ghost use Rattle.netlink_packet_route.specs.Report.{line};
ghost use Rattle.show_lines.specs.Show.{ShowsDebug, repeated};
ghost use Rattle.show_lines.specs.Pieces.{OnStop};
ghost use Rattle.show_lines.specs.Progress.{WritesAnswer};

use crate::asking::Asked;
use crate::by_options::write_below;
use crate::messages::push_messages;
use crate::parts::push_lists;
use crate::plain::write_plain;
use crate::running::Stop;
use link_messages::Payload;
use link_show::LineOptions;
use std::alloc::{AllocError, Global};
use std::io::Write;

/// Repeats a line, and writes below it what it asks for, as Rust's `Debug` prints values. The result of a check is that of the
/// plain form.
pub(crate) fn write_debug<W: Write>(
    alloc: Global,
    writer: &mut W,
    text: &[u8],
    asked: Asked,
    bytes: &[u8],
) -> Result<bool, Stop>
    ensures shown { IfOk result (WritesAnswer ShowsDebug asked bytes.now
        text.now (W.contents writer.old) (W.contents writer.new)) }
    ensures stopped { OnStop result (Keeps (W.contents writer.old) (W.contents writer.new)) }
{
    let mut below = String::new(alloc);
    match asked {
        Asked::Messages => {
            let read = push_messages(alloc, &mut below, bytes);
            write_pushed(writer, text, read, below.as_str())
        }
        Asked::Attributes(family) => {
            let payload = Payload { at: 0, bytes };
            let read = push_lists(alloc, &mut below, family, payload);
            write_pushed(writer, text, read, below.as_str())
        }
        Asked::Verdict(_) => write_plain(writer, text, asked, LineOptions::default(), bytes),
    }
}

/// Repeats a line, and writes `below`, if that is complete. Returns `read`.
fn write_pushed<W: Write>(
    writer: &mut W,
    text: &[u8],
    read: Result<bool, AllocError>,
    below: &str,
) -> Result<bool, Stop>
    ensures shown { IfOk result (λ well. (read ≡ Ok well)
        × Appends (W.contents writer.old) (W.contents writer.new) (line (repeated text.now) ++ below.now)) }
    ensures stopped { OnStop result (Keeps (W.contents writer.old) (W.contents writer.new)) }
{
    match read {
        Ok(read) => match write_below(writer, text, below) {
            Ok(()) => Ok(read),
            Err(_) => Err(Stop::Writer),
        },
        Err(_) => Err(Stop::Memory),
    }
}
