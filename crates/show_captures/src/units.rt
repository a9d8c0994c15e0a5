//! Writes the output for the units of an input.

ghost use Rattle.std.specs.Prelude.{◌≡◌, ◌≤◌, ◌^◌, List, ℕ, suc, length, drop, false, Some, IfOk, MatchOption};
ghost use Rattle.std.specs.Io.KnownBytes.{Appends};
ghost use Rattle.link_capture.specs.Meaning.{meaning_of};
ghost use Rattle.show_captures.specs.Event.{WritesUnit, end_line};
ghost use Rattle.show_captures.specs.Progress.{WritesUnits, Counts};
ghost use Rattle.show_captures.specs.declared.units.Turn.TheVariants.{Done};
ghost use Rattle.show_lines.specs.Pieces.{AddsPieces, IfWritten};

use crate::place::Place;
use crate::show::ShowUnits;
use link_capture::{Event, InputError, Next};
use show_lines::Stop;
use std::alloc::Global;
use std::io::Write;

/// What became of some bytes.
#[derive(Clone, Copy, Debug)]
pub(crate) enum Turn {
    /// The first `used` bytes are units, and have no error, if `well` is set. More bytes have to be read.
    More { used: usize, well: bool },
    /// The input has ended, and has no error, if `well` is set.
    Done { well: bool },
}

/// Writes the output for the units at the start of `bytes`, which are all that is left, if `is_last` is set.
pub(crate) fn write_units<S: ShowUnits, W: Write>(
    alloc: Global,
    shown: &S,
    paper: &mut S::Paper,
    place: &mut Place,
    bytes: &[u8],
    is_last: bool,
    writer: &mut W,
) -> Result<Turn, Stop>
    ensures shown { IfOk result (WritesUnits (S.units shown.now) is_last place.old place.new bytes.now
        (W.contents writer.old) (W.contents writer.new)) }
    ensures pieces { IfWritten result (AddsPieces (S.piece shown.now)
        (W.contents writer.old) (W.contents writer.new)) }
{
    let mut used = 0;
    let mut well = true;
    loop {
        match place.capture.next(rest_of(bytes, used), is_last) {
            Next::More => return Ok(Turn::More { used, well }),
            Next::End => return Ok(Turn::Done { well }),
            Next::Wrong(error) => return write_error(alloc, shown, paper, place.at, error, writer),
            Next::Unit { event, size } => {
                match write_unit(alloc, shown, paper, place, &event, size, writer) {
                    Ok(read) => well &= read,
                    Err(stop) => return Err(stop),
                }
                used += size;
            }
        }
    }
}

/// Returns the bytes after the first `used`.
fn rest_of(bytes: &[u8], used: usize) -> &[u8]
    requires { used ≤ length bytes.now }
    ensures { result.now ≡ drop used bytes.now }
{
    &bytes[used..]
}

/// Writes the output for a unit of `size` bytes, and counts it.
fn write_unit<S: ShowUnits, W: Write>(
    alloc: Global,
    shown: &S,
    paper: &mut S::Paper,
    place: &mut Place,
    event: &Event<'_>,
    size: usize,
    writer: &mut W,
) -> Result<bool, Stop>
    ensures shown { IfOk result (λ well. WritesUnit (S.units shown.now) place.old.packets (meaning_of event.now)
        (W.contents writer.old) (W.contents writer.new) well × Counts (meaning_of event.now) size place.old place.new) }
    ensures pieces { IfWritten result (AddsPieces (S.piece shown.now)
        (W.contents writer.old) (W.contents writer.new)) }
{
    let read = match write_event(alloc, shown, paper, place.packets, event, writer) {
        Ok(read) => read,
        Err(stop) => return Err(stop),
    };
    match place.count(event, size) {
        Ok(()) => Ok(read),
        Err(stop) => Err(stop),
    }
}

/// Writes the output for a unit that follows so many packets.
fn write_event<S: ShowUnits, W: Write>(
    alloc: Global,
    shown: &S,
    paper: &mut S::Paper,
    packets: u64,
    event: &Event<'_>,
    writer: &mut W,
) -> Result<bool, Stop>
    ensures shown { IfOk result (WritesUnit (S.units shown.now) packets (meaning_of event.now)
        (W.contents writer.old) (W.contents writer.new)) }
    ensures pieces { IfWritten result (AddsPieces (S.piece shown.now)
        (W.contents writer.old) (W.contents writer.new)) }
{
    match event {
        Event::Nothing => Ok(true),
        Event::Packet(packet) => match next_number(packets) {
            Some(number) => shown.show_packet(alloc, paper, number, packet, writer),
            None => Err(Stop::Reader),
        },
        Event::Message(bytes) => shown.show_messages(alloc, paper, bytes, writer),
        Event::Time(time) => match shown.show_time(alloc, paper, *time, writer) {
            Ok(()) => Ok(true),
            Err(stop) => Err(stop),
        },
    }
}

/// Returns the number of the packet that follows so many, or `None` if it is 2<sup>64</sup>.
fn next_number(packets: u64) -> Option<u64>
    ensures { MatchOption result (2 ^ 64 ≤ suc packets) (λ number. number ≡ suc packets) }
{
    packets.checked_add(1)
}

/// Writes the output for an error that ends an input.
fn write_error<S: ShowUnits, W: Write>(
    alloc: Global,
    shown: &S,
    paper: &mut S::Paper,
    at: u64,
    error: InputError,
    writer: &mut W,
) -> Result<Turn, Stop>
    ensures shown { IfOk result (λ turn. (turn ≡ Done false)
        × Appends (W.contents writer.old) (W.contents writer.new) (end_line (S.units shown.now) (Some (at, error)))) }
    ensures pieces { IfWritten result (AddsPieces (S.piece shown.now)
        (W.contents writer.old) (W.contents writer.new)) }
{
    match shown.show_error(alloc, paper, at, error, writer) {
        Ok(()) => Ok(Turn::Done { well: false }),
        Err(stop) => Err(stop),
    }
}
