//! Reads an input of units, and writes the output for it.

ghost use Rattle.std.specs.Prelude.{◌≡◌, ◌<◌, ◌≤◌, length, drop, IfOk, vec_len};
ghost use Rattle.std.specs.Io.Buffered.{writer_buffer, writer_contents};
ghost use Rattle.std.specs.Io.KnownBytes.{Keeps};
ghost use Rattle.link_capture.specs.Unit.{IsTooShort};
ghost use Rattle.show_captures.specs.Run.{RunsCapture};
ghost use Rattle.show_captures.specs.Progress.{ReadsOn};
ghost use Rattle.show_lines.specs.Pieces.{AddsPieces, IfWritten};

use crate::place::Place;
use crate::show::ShowUnits;
use crate::units::{Turn, write_units};
use link_capture::Form;
use show_lines::{Stop, read_more};
use std::alloc::{AllocError, Global};
use std::io::{BufWriter, Read, Write};

/// Processes the units of `first`, which was read before, and of `reader`, up to its end or to an error that ends the
/// input. Writes the output for each and flushes it, before it reads more. `chunk` is the memory for reads. Returns whether
/// there is no error.
///
/// # Errors
///
/// A [`Stop`].
pub(crate) fn show_capture<S: ShowUnits, R: Read, W: Write + Drop>(
    alloc: Global,
    shown: &S,
    paper: &mut S::Paper,
    form: Form,
    first: &[u8],
    chunk: &mut [u8],
    reader: &mut R,
    writer: &mut BufWriter<W>,
) -> Result<bool, Stop>
    requires { 0 < length chunk.old }
    ensures shown { IfOk result (RunsCapture (S.units shown.now) form first.now (R.remaining reader.old) (R.remaining reader.new)
        (writer_contents W.contents writer.old) (writer_contents W.contents writer.new)) }
    ensures pieces { IfWritten result (AddsPieces (S.piece shown.now)
        (writer_contents W.contents writer.old) (writer_contents W.contents writer.new)) }
{
    let mut place = Place::new(form);
    let mut held = match copied(alloc, first) {
        Ok(held) => held,
        Err(_) => return Err(Stop::Memory),
    };
    let mut whole = true;
    let mut is_last = false;
    for _ in 0..u64::MAX {
        match write_units(alloc, shown, paper, &mut place, &held, is_last, writer) {
            Ok(Turn::More { used, well }) => {
                whole &= well;
                forget_front(&mut held, used);
            }
            Ok(Turn::Done { well }) => return Ok(whole & well),
            Err(stop) => return Err(stop),
        }
        is_last = match read_for_unit(&place, &mut held, chunk, reader, writer) {
            Ok(count) => count == 0,
            Err(stop) => return Err(stop),
        };
    }
    Err(Stop::Reader)
}

fn copied(alloc: Global, bytes: &[u8]) -> Result<Vec<u8>, AllocError>
    ensures { IfOk result (λ held. held.items ≡ bytes.now) }
{
    let mut held = Vec::new(alloc);
    held.extend_from_slice(bytes)?;
    Ok(held)
}

/// Removes the first `count` bytes.
fn forget_front(held: &mut Vec<u8>, count: usize)
    requires { count ≤ vec_len held.old }
    ensures { held.new.items ≡ drop count held.old.items }
{
    held.drain(..count);
}

/// Reads more of an input, if the bytes that are held are too few for a unit.
fn read_for_unit<R: Read, W: Write + Drop>(
    place: &Place,
    held: &mut Vec<u8>,
    chunk: &mut [u8],
    reader: &mut R,
    writer: &mut BufWriter<W>,
) -> Result<usize, Stop>
    requires short { IsTooShort place.now.capture held.old.items }
    requires room { 0 < length chunk.old }
    ensures read { IfOk result (λ count. ReadsOn held.old.items held.new.items
        (R.remaining reader.old) (R.remaining reader.new) count) }
    ensures kept { IfWritten result (Keeps (writer_contents W.contents writer.old) (writer_contents W.contents writer.new)) }
    ensures room { length chunk.new ≡ length chunk.old }
{
    read_on(held, chunk, reader, writer)
}

/// Flushes the output, reads more, and appends it to `held`. Returns how many bytes were read: 0 at the end.
pub(crate) fn read_on<R: Read, W: Write + Drop>(
    held: &mut Vec<u8>,
    chunk: &mut [u8],
    reader: &mut R,
    writer: &mut BufWriter<W>,
) -> Result<usize, Stop>
    requires { 0 < length chunk.old }
    ensures read { IfOk result (λ count. ReadsOn held.old.items held.new.items
        (R.remaining reader.old) (R.remaining reader.new) count) }
    ensures few { IfOk result (λ count. count ≤ length chunk.old) }
    ensures kept { IfWritten result (Keeps (writer_contents W.contents writer.old) (writer_contents W.contents writer.new)) }
    ensures room { length chunk.new ≡ length chunk.old }
{
    if writer.flush().is_err() {
        return Err(Stop::Writer);
    }
    let count = match read_more(reader, chunk, writer) {
        Ok(count) => count,
        Err(_) => return Err(Stop::Reader),
    };
    match held.extend_from_slice(&chunk[..count]) {
        Ok(()) => Ok(count),
        Err(_) => Err(Stop::Memory),
    }
}
