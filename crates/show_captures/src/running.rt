//! Runs the program on an input.

ghost use Rattle.std.specs.Prelude.{◌≡◌, ◌<◌, ◌≤◌, [], false, length, IfOk, if◌then◌else◌};
ghost use Rattle.std.specs.Result.{result_map_both};
ghost use Rattle.std.specs.Io.Buffered.{writer_buffer, writer_contents, writer_inner};
ghost use Rattle.program.specs.UntilEnd.{left_of};
ghost use Rattle.program.specs.Watched.{given, has_failed, passed_on};
ghost use Rattle.show_captures.specs.End.{StopsEarly};
ghost use Rattle.show_captures.specs.Run.{RunsFrom, RunsFor, input_form};
ghost use Rattle.show_captures.specs.Shower.{shower_of};
ghost use Rattle.show_lines.specs.Pieces.{AddsPieces, IfWritten};

use crate::captures::show_capture;
use crate::first::read_first;
use crate::show::ShowUnits;
use link_capture::{Form, OtherFormat};
use program::{UntilEnd, Watched, finish};
use show_lines::{Stop, show_lines};
use std::alloc::Global;
use std::io;
use std::io::{BufWriter, Read, Write};

/// The maximum number of bytes of one read.
const CHUNK: usize = 65_536;

/// Reads an input up to its end, or to an error that ends it, writes the output for it and flushes that. The input is a
/// stream of messages, if `raw` is set; otherwise, by its first bytes, a pcap or pcapng file, a file in another format, which may
/// be such a stream and of which nothing more is read, or else lines. Whenever it reads more, the output for all that it has read is written, and nothing is
/// left in the buffer of `writer`. Returns the exit status:
///
/// - 0 if there is no error;
/// - 1 if a line, a packet, a message or the input has an error;
/// - 2 if the input is a file in another format;
/// - 4 if an allocation fails;
/// - 5 if the reader fails, or the writer, which then says so.
///
/// The reader is not asked again after its end.
pub fn run<S: ShowUnits, R: Read, W: Write + Drop>(
    alloc: Global,
    shown: &S,
    paper: &mut S::Paper,
    raw: bool,
    reader: &mut UntilEnd<R>,
    writer: &mut BufWriter<Watched<W>>,
) -> u8
    ensures report { result < 3 → RunsFor (shower_of S.refused S.answered S.units shown.now) raw (left_of R.remaining reader.old) (left_of R.remaining reader.new)
        (given W.contents writer.old) (passed_on W.contents writer.new) result }
    // A run that stops early writes whole pieces of the output, and says why it stops.
    ensures stopped { 3 ≤ result → StopsEarly (S.piece shown.now) (S.ends shown.now) (S.breaks shown.now) result
        (given W.contents writer.old) (passed_on W.contents writer.new) (has_failed (writer_inner writer.new)) }
    // Nothing is left in the buffer.
    ensures empty { result < 5 → writer_buffer writer.new ≡ [] }
    ensures unfailed { has_failed (writer_inner writer.new) ≡ false → writer_buffer writer.new ≡ [] }
{
    match show_input(alloc, shown, paper, raw, reader, writer) {
        Ok(status) => finish(writer, status),
        Err(stop) => shown.end(alloc, paper, stop, writer),
    }
}

/// Processes an input. Returns the exit status: 0, 1 or 2.
fn show_input<S: ShowUnits, R: Read, W: Write + Drop>(
    alloc: Global,
    shown: &S,
    paper: &mut S::Paper,
    raw: bool,
    reader: &mut R,
    writer: &mut BufWriter<W>,
) -> Result<u8, Stop>
    ensures shown { IfOk result (RunsFor (shower_of S.refused S.answered S.units shown.now) raw (R.remaining reader.old) (R.remaining reader.new)
        (writer_contents W.contents writer.old) (writer_contents W.contents writer.new)) }
    ensures pieces { IfWritten result (AddsPieces (S.piece shown.now)
        (writer_contents W.contents writer.old) (writer_contents W.contents writer.new)) }
{
    let mut chunk = match vec![in alloc; 0u8; CHUNK] {
        Ok(chunk) => chunk,
        Err(_) => return Err(Stop::Memory),
    };
    let chunk = chunk.as_mut_slice();
    let first = match read_first(alloc, chunk, reader, writer) {
        Ok(first) => first,
        Err(stop) => return Err(stop),
    };
    let bytes = first.bytes.as_slice();
    let form = match form_of(raw, bytes) {
        Ok(form) => form,
        Err(format) => return status_of_other(shown.show_format(alloc, paper, format, writer)),
    };
    if first.is_last {
        let rest = &mut io::empty();
        return status_of(show_from(alloc, shown, paper, form, bytes, chunk, rest, writer));
    }
    status_of(show_from(alloc, shown, paper, form, bytes, chunk, reader, writer))
}

/// Returns the exit status after an input, which has no error, if `shown` is true.
fn status_of(shown: Result<bool, Stop>) -> Result<u8, Stop>
    ensures { result ≡ result_map_both (λ whole. if whole then 0 else 1) (λ stop. stop) shown }
{
    match shown {
        Ok(true) => Ok(0),
        Ok(false) => Ok(1),
        Err(stop) => Err(stop),
    }
}

/// Returns the exit status after a file in another format.
fn status_of_other(shown: Result<(), Stop>) -> Result<u8, Stop>
    ensures { result ≡ result_map_both (λ _. 2) (λ stop. stop) shown }
{
    match shown {
        Ok(()) => Ok(2),
        Err(stop) => Err(stop),
    }
}

/// Processes an input in this form, whose first bytes were read before. Returns whether it has no error.
fn show_from<S: ShowUnits, R: Read, W: Write + Drop>(
    alloc: Global,
    shown: &S,
    paper: &mut S::Paper,
    form: Option<Form>,
    first: &[u8],
    chunk: &mut [u8],
    reader: &mut R,
    writer: &mut BufWriter<W>,
) -> Result<bool, Stop>
    requires { 0 < length chunk.old }
    ensures shown { IfOk result (RunsFrom (shower_of S.refused S.answered S.units shown.now) form first.now (R.remaining reader.old) (R.remaining reader.new)
        (writer_contents W.contents writer.old) (writer_contents W.contents writer.new)) }
    ensures pieces { IfWritten result (AddsPieces (S.piece shown.now)
        (writer_contents W.contents writer.old) (writer_contents W.contents writer.new)) }
{
    match form {
        Some(form) => show_capture(alloc, shown, paper, form, first, chunk, reader, writer),
        None => show_lines(alloc, shown, paper, first, chunk, reader, writer),
    }
}

/// Returns the form of an input with these first bytes, or `None` for lines.
///
/// # Errors
///
/// The other format of a file.
fn form_of(raw: bool, first: &[u8]) -> Result<Option<Form>, OtherFormat>
    ensures { result ≡ input_form raw first.now }
{
    if raw {
        return Ok(Some(Form::Messages));
    }
    Form::of_file(first)
}
