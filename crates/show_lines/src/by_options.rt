//! Produces the output for an input line by options.

ghost use Rattle.std.specs.Prelude.{◌++◌, IfOk, OnOk};
ghost use Rattle.std.specs.Option.{option_copied};
ghost use Rattle.std.specs.Io.KnownBytes.{Appends, Keeps};
ghost use Rattle.netlink_packet_route.specs.Report.{line};
ghost use Rattle.show_lines.specs.Show.{ShowsAs, refusal, refused_by_options, answered_by_options, repeated};
ghost use Rattle.show_lines.specs.Pieces.{OnStop};
ghost use Rattle.show_lines.specs.Progress.{WritesAnswer};

use crate::arguments::{Format, Options};
use crate::asking::Asked;
use crate::debug::write_debug;
use crate::plain::write_plain;
use crate::repeating::write_repeated;
use crate::running::Stop;
use crate::show::ShowLines;
use std::alloc::Global;
use std::io;
use std::io::Write;

impl ShowLines for Options {
    type Paper = ();

    ghost refused = { refused_by_options };

    ghost answered = { answered_by_options };

    ghost piece = { λ _ _. Unit {0} };

    fn refuse<W: Write>(
        &self,
        alloc: Global,
        paper: &mut (),
        number: u64,
        text: Option<&[u8]>,
        reason: &str,
        writer: &mut W,
    ) -> Result<(), Stop> {
        match write_refusal(writer, text, reason) {
            Ok(()) => Ok(()),
            Err(_) => Err(Stop::Writer),
        }
    }

    fn answer<W: Write>(
        &self,
        alloc: Global,
        paper: &mut (),
        number: u64,
        text: &[u8],
        asked: Asked,
        bytes: &[u8],
        writer: &mut W,
    ) -> Result<bool, Stop> {
        write_answer(alloc, *self, text, asked, bytes, writer)
    }
}

/// Repeats a line, unless it is too long, and writes below it `reason`, which says what is wrong with it.
fn write_refusal<W: Write>(writer: &mut W, text: Option<&[u8]>, reason: &str) -> io::Result<()>
    ensures { OnOk result (Appends (W.contents writer.old) (W.contents writer.new)
        (refusal (option_copied text.entry) reason.now)) }
{
    match text {
        Some(text) => write_lines(writer, text, reason),
        None => write_line(writer, reason.as_bytes()),
    }
}

/// Repeats a line, and writes `reason` below it.
fn write_lines<W: Write>(writer: &mut W, text: &[u8], reason: &str) -> io::Result<()>
    ensures { OnOk result (Appends (W.contents writer.old) (W.contents writer.new) (line (repeated text.now) ++ line reason.now)) }
{
    write_repeated(writer, text)?;
    write_line(writer, reason.as_bytes())
}

/// Repeats a line, and writes below it what it asks for, in the form that the options name.
fn write_answer<W: Write>(
    alloc: Global,
    options: Options,
    text: &[u8],
    asked: Asked,
    bytes: &[u8],
    writer: &mut W,
) -> Result<bool, Stop>
    ensures shown { IfOk result (WritesAnswer (ShowsAs options.format options.lines) asked bytes.now
        text.now (W.contents writer.old) (W.contents writer.new)) }
    ensures stopped { OnStop result (Keeps (W.contents writer.old) (W.contents writer.new)) }
{
    match options.format {
        Format::Plain => write_plain(writer, text, asked, options.lines, bytes),
        Format::Debug => write_debug(alloc, writer, text, asked, bytes),
    }
}

/// Repeats a line, and writes `below`.
pub(crate) fn write_below<W: Write>(writer: &mut W, text: &[u8], below: &str) -> io::Result<()>
    ensures { OnOk result (Appends (W.contents writer.old) (W.contents writer.new) (line (repeated text.now) ++ below.now)) }
{
    write_repeated(writer, text)?;
    writer.write_all(below.as_bytes())
}

/// Writes `text`, and LF.
fn write_line<W: Write>(writer: &mut W, text: &[u8]) -> io::Result<()>
    ensures { OnOk result (Appends (W.contents writer.old) (W.contents writer.new) (line text.now)) }
{
    writer.write_all(text)?;
    writer.write_all(b"\n")
}
