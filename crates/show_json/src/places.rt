//! Where documents are from: a line, the record of a time, or a packet.

ghost use Rattle.std.specs.Prelude.{◌≡◌, ◌++◌, ◌∷◌, [], OnOk, codes};
ghost use Rattle.json.specs.Tree.{json_tokens};
ghost use Rattle.link_capture.specs.Meaning.{captured_of};
ghost use Rattle.link_json.specs.Doc.{fields_tokens};
ghost use Rattle.show_captures.specs.Packet.{protocol_in};
ghost use Rattle.show_json.specs.Clock.{clock_json};
ghost use Rattle.show_json.specs.Place.{file_of, line_fields, time_fields, packet_fields, packet_json, protocol_json};

use crate::by_json::Json;
use crate::clocks::{Clock, write_clock};
use link_capture::Packet;
use link_json::{Document, Place, write_named, write_number_field};
use show_captures::{name_of_protocol, protocol_in};
use std::alloc::AllocError;

/// A line of a file, by its number.
#[derive(Drop)]
pub(crate) struct LinePlace<'a> {
    pub(crate) json: Json<'a>,
    pub(crate) number: u64,
}

impl Place for LinePlace<'_> {
    ghost fields = { λ place. line_fields (file_of place.json) place.number };

    fn write_fields(&self, doc: &mut Document) -> Result<(), AllocError> {
        self.json.write_fields(doc)?;
        write_number_field(doc, "line", self.number)
    }
}

/// The record of a time in a file.
#[derive(Drop)]
pub(crate) struct TimePlace<'a> {
    pub(crate) json: Json<'a>,
    pub(crate) clock: Option<Clock>,
}

impl Place for TimePlace<'_> {
    ghost fields = { λ place. time_fields (file_of place.json) (clock_json place.clock) };

    fn write_fields(&self, doc: &mut Document) -> Result<(), AllocError> {
        self.json.write_fields(doc)?;
        doc.key("time")?;
        write_clock(doc, &self.clock)
    }
}

/// A packet of a file, by its number.
#[derive(Drop)]
pub(crate) struct PacketPlace<'a> {
    pub(crate) json: Json<'a>,
    pub(crate) number: u64,
    pub(crate) clock: Option<Clock>,
    pub(crate) packet: Packet<'a>,
}

impl Place for PacketPlace<'_> {
    ghost fields = { λ place.
        packet_fields (file_of place.json) place.number (clock_json place.clock) (captured_of place.packet) };

    fn write_fields(&self, doc: &mut Document) -> Result<(), AllocError> {
        self.json.write_fields(doc)?;
        doc.key("packet")?;
        write_packet(doc, self.number, &self.clock, &self.packet)
    }
}

/// Writes what is known of a packet.
fn write_packet(
    doc: &mut Document,
    number: u64,
    clock: &Option<Clock>,
    packet: &Packet<'_>,
) -> Result<(), AllocError>
    ensures { OnOk result (doc.new ≡ doc.old
        ++ json_tokens (packet_json number (clock_json clock.now) (captured_of packet.now))) }
{
    doc.begin_object()?;
    write_number_field(doc, "number", number)?;
    doc.key("time")?;
    write_clock(doc, clock)?;
    write_number_field(doc, "len", packet.bytes.len() as u64)?;
    write_number_field(doc, "original_len", packet.original.into())?;
    write_number_field(doc, "link_type", packet.link_type.into())?;
    doc.key("protocol")?;
    write_protocol(doc, protocol_in(packet))?;
    doc.end_object()
}

/// Writes a protocol, or null.
fn write_protocol(doc: &mut Document, protocol: Option<u16>) -> Result<(), AllocError>
    ensures { OnOk result (doc.new ≡ doc.old ++ json_tokens (protocol_json protocol)) }
{
    match protocol {
        Some(number) => write_named(doc, number.into(), name_of_protocol(number)),
        None => doc.null(),
    }
}
