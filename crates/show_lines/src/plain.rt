//! Produces the output for an input line in the plain form.

ghost use Rattle.std.specs.Prelude.{IfOk};
ghost use Rattle.std.specs.Io.KnownBytes.{Keeps};
ghost use Rattle.link_show.specs.List.{Writes};
ghost use Rattle.link_show.specs.Sink.{Whole};
ghost use Rattle.show_lines.specs.Show.{ShowsPlain};
ghost use Rattle.show_lines.specs.Pieces.{OnStop};
ghost use Rattle.show_lines.specs.Progress.{WritesAnswer};

use crate::asking::Asked;
use crate::repeating::write_repeated;
use crate::running::Stop;
use link_messages::Payload;
use link_show::{LineOptions, print_messages, write_family_list, write_verdict};
use std::io;
use std::io::{ErrorKind, Write};

/// Repeats a line, and writes below it what it asks for, as people read it. Returns false if one of the lines below is an error, or
/// a list that is checked is not canonical.
pub(crate) fn write_plain<W: Write>(
    writer: &mut W,
    text: &[u8],
    asked: Asked,
    lines: LineOptions,
    bytes: &[u8],
) -> Result<bool, Stop>
    ensures shown { IfOk result (WritesAnswer (ShowsPlain lines) asked bytes.now
        text.now (W.contents writer.old) (W.contents writer.new)) }
    ensures stopped { OnStop result (Keeps (W.contents writer.old) (W.contents writer.new)) }
{
    match write_line(writer, text, asked, lines, bytes) {
        Ok(well) => Ok(well),
        Err(_) => Err(Stop::Writer),
    }
}

/// Does what `write_plain` does.
fn write_line<W: Write>(
    writer: &mut W,
    text: &[u8],
    asked: Asked,
    lines: LineOptions,
    bytes: &[u8],
) -> io::Result<bool>
    ensures { IfOk result (WritesAnswer (ShowsPlain lines) asked bytes.now
        text.now (W.contents writer.old) (W.contents writer.new)) }
{
    write_repeated(writer, text)?;
    Ok(write_asked(writer, asked, lines, bytes)?)
}

/// Writes what a command asks for.
fn write_asked<W: Write>(
    writer: &mut W,
    asked: Asked,
    lines: LineOptions,
    bytes: &[u8],
) -> Result<bool, ErrorKind>
    ensures { IfOk result (Writes (ShowsPlain lines asked bytes.now)
        (Whole (W.contents writer.old)) (Whole (W.contents writer.new))) }
{
    match asked {
        Asked::Messages => print_messages(writer, bytes, lines),
        Asked::Attributes(family) => {
            write_family_list(writer, family, lines, "  ", Payload { at: 0, bytes })
        }
        Asked::Verdict(family) => write_verdict(writer, family, "", Payload { at: 0, bytes }),
    }
}
