//! The documents for the units of an input.

ghost use Rattle.std.specs.Prelude.{◌≡◌, List, ℕ, [], false, IfOk};
ghost use Rattle.std.specs.Io.KnownBytes.{Appends};
ghost use Rattle.link_capture.specs.Meaning.{captured_of};
ghost use Rattle.show_lines.specs.Pieces.{AddsPieces, IfWritten};
ghost use Rattle.show_json.specs.Line.{IsDocument};
ghost use Rattle.show_json.specs.Stop.{breaks_json};
ghost use Rattle.show_json.specs.Place.{file_fields, file_of};
ghost use Rattle.show_json.specs.Unit.{ShowsPacketAt, short_line, units_json};

use crate::by_json::Json;
use crate::clocks::clock_of;
use crate::places::{PacketPlace, TimePlace};
use crate::stops::stopped;
use crate::unopened::finish_with;
use link_capture::{Bytes, InputError, OtherFormat, Packet, Time};
use link_json::{Document, Place, write_documents, write_fault, write_place};
use program::{Watched, end_failed, finish};
use show_captures::{Carried, ShowUnits, carried_by};
use show_lines::Stop;
use std::alloc::Global;
use std::io::{BufWriter, Write};

impl ShowUnits for Json<'_> {
    ghost units = { units_json };

    ghost ends = { λ _. [] };

    ghost breaks = { λ json. breaks_json (file_fields (file_of json)) };

    fn show_packet<W: Write>(
        &self,
        alloc: Global,
        paper: &mut Document,
        number: u64,
        packet: &Packet<'_>,
        writer: &mut W,
    ) -> Result<bool, Stop> {
        let place = PacketPlace {
            json: *self,
            number,
            clock: clock_of(packet.time),
            packet: *packet,
        };
        write_carried(alloc, paper, &place, packet, writer)
    }

    fn show_messages<W: Write>(
        &self,
        alloc: Global,
        paper: &mut Document,
        bytes: &[u8],
        writer: &mut W,
    ) -> Result<bool, Stop> {
        stopped(write_documents(alloc, paper, self, bytes, writer))
    }

    fn show_time<W: Write>(
        &self,
        alloc: Global,
        paper: &mut Document,
        time: Time,
        writer: &mut W,
    ) -> Result<(), Stop> {
        let place = TimePlace {
            json: *self,
            clock: clock_of(time),
        };
        stopped(write_place(alloc, paper, &place, writer))
    }

    fn show_error<W: Write>(
        &self,
        alloc: Global,
        paper: &mut Document,
        at: u64,
        error: InputError,
        writer: &mut W,
    ) -> Result<(), Stop> {
        let Ok(text) = format!(in alloc; "{error}") else {
            return Err(Stop::Memory);
        };
        stopped(write_fault(alloc, paper, self, Some(at), text.as_bytes(), writer))
    }

    fn show_format<W: Write>(
        &self,
        alloc: Global,
        paper: &mut Document,
        format: OtherFormat,
        writer: &mut W,
    ) -> Result<(), Stop> {
        let Ok(text) = format!(in alloc; "{format}") else {
            return Err(Stop::Memory);
        };
        stopped(write_fault(alloc, paper, self, None, text.as_bytes(), writer))
    }

    fn end<W: Write + Drop>(
        &self,
        alloc: Global,
        paper: &mut Document,
        stop: Stop,
        writer: &mut BufWriter<Watched<W>>,
    ) -> u8 {
        match stop {
            Stop::Memory => finish(writer, 4),
            Stop::Reader => finish_with(alloc, paper, self, "read fault", writer),
            Stop::Writer => end_failed(writer),
        }
    }
}

/// Writes the documents of a packet. Returns false if one has an error.
fn write_carried<P: Place, W: Write>(
    alloc: Global,
    paper: &mut Document,
    place: &P,
    packet: &Packet<'_>,
    writer: &mut W,
) -> Result<bool, Stop>
    ensures shown { IfOk result (λ well. (out : List ℕ)
        × ShowsPacketAt (P.fields place.now) (captured_of packet.now) out well
        × Appends (W.contents writer.old) (W.contents writer.new) out) }
    ensures pieces { IfWritten result (AddsPieces IsDocument (W.contents writer.old) (W.contents writer.new)) }
{
    match carried_by(packet) {
        Carried::Messages(bytes) => stopped(write_documents(alloc, paper, place, bytes, writer)),
        Carried::Short(length) => write_short(alloc, paper, place, length, writer),
        Carried::Other => match stopped(write_place(alloc, paper, place, writer)) {
            Ok(()) => Ok(true),
            Err(stop) => Err(stop),
        },
    }
}

/// Writes the error of a packet with so many bytes, too few for its header.
fn write_short<P: Place, W: Write>(
    alloc: Global,
    paper: &mut Document,
    place: &P,
    length: usize,
    writer: &mut W,
) -> Result<bool, Stop>
    ensures shown { IfOk result (λ well. Appends (W.contents writer.old) (W.contents writer.new)
        (short_line (P.fields place.now) length) × (well ≡ false)) }
    ensures pieces { IfWritten result (AddsPieces IsDocument (W.contents writer.old) (W.contents writer.new)) }
{
    let left = Bytes(length);
    let Ok(text) = format!(in alloc; "{left}, too few for a cooked header") else {
        return Err(Stop::Memory);
    };
    match stopped(write_fault(alloc, paper, place, Some(0), text.as_bytes(), writer)) {
        Ok(()) => Ok(false),
        Err(stop) => Err(stop),
    }
}
