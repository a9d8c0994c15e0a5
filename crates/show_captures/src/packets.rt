//! What packets carry, and what is written for them.

ghost use Rattle.std.specs.Prelude.{◌≡◌, ◌≢◌, ◌≤◌, ◌++◌, Bool, List, ℕ, suc, length, drop, false, IfOk, OnOk};
ghost use Rattle.std.specs.Io.KnownBytes.{Appends};
ghost use Rattle.link_base.specs.Labels.{name_in};
ghost use Rattle.link_capture.specs.Meaning.{captured_of};
ghost use Rattle.show_captures.specs.Packet.{Carries, ShowsPacket, ShowsBelow, packet_line, protocol_in, original_part, protocol_part, protocol_name, protocol_of, type_part, short_line};
ghost use Rattle.show_lines.specs.Pieces.{Grows, IfWritten};

use crate::protocols::name_of_protocol;
use crate::times::time_text;
use byteorder::{BigEndian, ByteOrder};
use link_capture::{Bytes, NETLINK, Packet};
use show_lines::{Options, Stop, write_bare};
use std::alloc::Global;
use std::io;
use std::io::Write;

/// The length of the header that packets of netlink have, whose last two bytes are the protocol.
const HEADER: usize = 16;

/// What a packet carries.
#[derive(Clone, Copy, Debug, PartialEq, Eq)]
pub enum Carried<'a> {
    /// Messages of NETLINK_ROUTE: the bytes after the header.
    Messages(&'a [u8]),
    /// So many bytes of the link type of netlink, too few for the header.
    Short(usize),
    /// Those of another link type or protocol.
    Other,
}

/// Returns what a packet carries.
pub fn carried_by<'a>(packet: &Packet<'a>) -> Carried<'a>
    ensures { Carries (captured_of packet.now) result }
{
    let bytes = packet.bytes;
    if packet.link_type != NETLINK {
        return Carried::Other;
    }
    if bytes.len() < HEADER {
        return Carried::Short(bytes.len());
    }
    if protocol_of(bytes) != 0 {
        return Carried::Other;
    }
    Carried::Messages(&bytes[HEADER..])
}

/// Returns the protocol of a packet, or `None` if it has another link type than that of netlink, or too few bytes for the
/// header.
pub fn protocol_in(packet: &Packet<'_>) -> Option<u16>
    ensures { result ≡ protocol_in (captured_of packet.now) }
{
    if packet.link_type != NETLINK || packet.bytes.len() < HEADER {
        return None;
    }
    Some(protocol_of(packet.bytes))
}

/// Writes the line of a packet, and its messages below it. Returns false if there is an error.
pub(crate) fn write_packet<W: Write>(
    alloc: Global,
    options: Options,
    number: u64,
    packet: &Packet<'_>,
    writer: &mut W,
) -> Result<bool, Stop>
    ensures shown { IfOk result (λ well. (out : List ℕ) × ShowsPacket options number (captured_of packet.now) out well
        × Appends (W.contents writer.old) (W.contents writer.new) out) }
    ensures pieces { IfWritten result (Grows (W.contents writer.old) (W.contents writer.new)) }
{
    let time = time_text(packet.time);
    match write_line(number, time.as_str(), packet, writer) {
        Ok(()) => write_below(alloc, options, packet, writer),
        Err(_) => Err(Stop::Writer),
    }
}

/// Writes the line of a packet.
fn write_line<W: Write>(
    number: u64,
    time: &str,
    packet: &Packet<'_>,
    writer: &mut W,
) -> io::Result<()>
    ensures { OnOk result (Appends (W.contents writer.old) (W.contents writer.new)
        (packet_line number time.now (captured_of packet.now))) }
{
    let length = packet.bytes.len();
    write!(writer, "packet {number} time {time} len {length}")?;
    write_original(length, packet.original, writer)?;
    write_type(packet, writer)?;
    writer.write_all(b"\n")
}

/// Writes the length that a packet had, if that is not the captured one.
fn write_original<W: Write>(length: usize, original: u32, writer: &mut W) -> io::Result<()>
    ensures { OnOk result (Appends (W.contents writer.old) (W.contents writer.new) (original_part length original)) }
{
    if original as usize == length {
        return Ok(());
    }
    write!(writer, " of {original}")
}

/// Writes the link type of a packet, if it is not that of netlink; otherwise its protocol, if it has a header.
fn write_type<W: Write>(packet: &Packet<'_>, writer: &mut W) -> io::Result<()>
    ensures { OnOk result (Appends (W.contents writer.old) (W.contents writer.new) (type_part (captured_of packet.now))) }
{
    let link_type = packet.link_type;
    if link_type != NETLINK {
        return write!(writer, " link type {link_type}");
    }
    if packet.bytes.len() < HEADER {
        return Ok(());
    }
    write_protocol(protocol_of(packet.bytes), writer)
}

/// Writes a protocol, if it is not NETLINK_ROUTE.
fn write_protocol<W: Write>(protocol: u16, writer: &mut W) -> io::Result<()>
    ensures { OnOk result (Appends (W.contents writer.old) (W.contents writer.new) (protocol_part protocol)) }
{
    if protocol == 0 {
        return Ok(());
    }
    match name_of_protocol(protocol) {
        Some(name) => write!(writer, " protocol {name} ({protocol})"),
        None => write!(writer, " protocol {protocol}"),
    }
}

/// Returns the protocol in a packet's header.
fn protocol_of(bytes: &[u8]) -> u16
    requires { 16 ≤ length bytes.now }
    ensures { result ≡ protocol_of bytes.now }
{
    BigEndian::read_u16(&bytes[14..])
}

/// Writes the messages of a packet, if it is of NETLINK_ROUTE. Returns false if there is an error.
fn write_below<W: Write>(
    alloc: Global,
    options: Options,
    packet: &Packet<'_>,
    writer: &mut W,
) -> Result<bool, Stop>
    ensures shown { IfOk result (λ well. (out : List ℕ) × ShowsBelow options (captured_of packet.now) out well
        × Appends (W.contents writer.old) (W.contents writer.new) out) }
    ensures pieces { IfWritten result (Grows (W.contents writer.old) (W.contents writer.new)) }
{
    match carried_by(packet) {
        Carried::Messages(bytes) => write_bare(alloc, options, bytes, writer),
        Carried::Short(length) => write_short(length, writer),
        Carried::Other => Ok(true),
    }
}

/// Writes the error of a packet with so many bytes, too few for the header.
fn write_short<W: Write>(length: usize, writer: &mut W) -> Result<bool, Stop>
    ensures shown { IfOk result (λ well. Appends (W.contents writer.old) (W.contents writer.new) (short_line length)
        × (well ≡ false)) }
    ensures pieces { IfWritten result (Grows (W.contents writer.old) (W.contents writer.new)) }
{
    let left = Bytes(length);
    match writeln!(writer, "  error at 0: {left}, too few for a cooked header") {
        Ok(()) => Ok(false),
        Err(_) => Err(Stop::Writer),
    }
}
