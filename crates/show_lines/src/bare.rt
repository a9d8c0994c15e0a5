//! Produces the output for messages that are on no line of the input.

ghost use Rattle.std.specs.Prelude.{IfOk};
ghost use Rattle.std.specs.Io.KnownBytes.{Keeps};
ghost use Rattle.link_show.specs.List.{Writes};
ghost use Rattle.link_show.specs.Message as plain;
ghost use Rattle.link_show.specs.Sink.{Whole};
ghost use Rattle.show_lines.specs.Messages.{ShowsMessages};
ghost use Rattle.show_lines.specs.Pieces.{OnStop};
ghost use Rattle.show_lines.specs.Progress.{WritesMessages};

use crate::arguments::{Format, Options};
use crate::messages::push_messages;
use crate::running::Stop;
use link_show::{LineOptions, print_messages};
use std::alloc::Global;
use std::io::Write;

/// Writes the output for messages, without a line before it: the one that a `message` line has below it. Returns false if
/// it has an error.
///
/// # Errors
///
/// A [`Stop`]: `Memory`, in the debug form only, or `Writer`.
pub fn write_bare<W: Write>(
    alloc: Global,
    options: Options,
    bytes: &[u8],
    writer: &mut W,
) -> Result<bool, Stop>
    ensures shown { IfOk result (WritesMessages options bytes.now (W.contents writer.old) (W.contents writer.new)) }
    ensures stopped { OnStop result (Keeps (W.contents writer.old) (W.contents writer.new)) }
{
    match options.format {
        Format::Plain => write_plain(options.lines, bytes, writer),
        Format::Debug => write_debug(alloc, bytes, writer),
    }
}

/// Writes the output for messages in the plain form.
fn write_plain<W: Write>(lines: LineOptions, bytes: &[u8], writer: &mut W) -> Result<bool, Stop>
    ensures shown { IfOk result (Writes (plain.ShowsMessages lines bytes.now)
        (Whole (W.contents writer.old)) (Whole (W.contents writer.new))) }
    ensures stopped { OnStop result (Keeps (W.contents writer.old) (W.contents writer.new)) }
{
    match print_messages(writer, bytes, lines) {
        Ok(well) => Ok(well),
        Err(_) => Err(Stop::Writer),
    }
}

/// Writes the output for messages in the debug form.
fn write_debug<W: Write>(alloc: Global, bytes: &[u8], writer: &mut W) -> Result<bool, Stop>
    ensures shown { IfOk result (Writes (ShowsMessages bytes.now)
        (Whole (W.contents writer.old)) (Whole (W.contents writer.new))) }
    ensures stopped { OnStop result (Keeps (W.contents writer.old) (W.contents writer.new)) }
{
    let mut text = String::new(alloc);
    let well = match push_messages(alloc, &mut text, bytes) {
        Ok(well) => well,
        Err(_) => return Err(Stop::Memory),
    };
    match writer.write_all(text.as_str().as_bytes()) {
        Ok(()) => Ok(well),
        Err(_) => Err(Stop::Writer),
    }
}
