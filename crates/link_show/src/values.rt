//! Values, by the form of their content.

ghost use Rattle.std.specs.Prelude.{◌≡◌, None, OnOk};
ghost use Rattle.link_show.specs.Sink.{Gains};
ghost use Rattle.link_base.specs.IpAddress.{sixteen_octets};
ghost use Rattle.link_show.specs.Octets.{ip6_text};
ghost use Rattle.link_show.specs.Value.{protocol_text, other_text, counts, counted_in, number_or_address, content_text, value_text, WritesValue};
ghost use Rattle.link_base.specs.Labels.{label_of};
ghost use Rattle.link_base.specs.Named.{text_of};
ghost use Rattle.link_base.specs.Protocol.{vlan_protocols, protocol_number};
ghost use Rattle.link_base.specs.Buffer.{kind_field_of};
ghost use Rattle.link_base.specs.Viewed.{set_in, buffer_in, payload_in};

use crate::counters::write_places;
use crate::faults::write_opaque_size;
use crate::flags::write_flags;
use crate::ip::{write_ipv4, write_ipv6};
use crate::numbers::{number_at, write_number};
use crate::octets::{write_address, write_hex};
use crate::pieces::{Piece, put_pieces, put_signed};
use crate::quoted::write_quoted;
use crate::sink::Sink;
use crate::structs::{
    MASKED_FIELDS, PAIR_FIELDS, bytes_of_two, write_fields, write_limits, write_role, write_struct,
};
use link_base::classes::flag_or_bool::flag_is_on;
use link_base::rows::form::{Look, Width};
use link_base::rows::label::{KindLabel, Quantity};
use link_base::views::attribute_set::AttributeSet;
use link_base::views::content::Content;
use link_base::views::view::Value;
use link_base::{Address, VlanProtocol};
use link_messages::without_nul;
use std::net::Ipv6Addr;

/// Writes the content of an attribute, without its name. Nothing is written for a content without a value and for lists;
/// for an attribute whose type has no row, its payload.
///
/// # Errors
///
/// That of the writer.
#[tactic(auto, using(crate::proofs::ValueTexts::value_written, crate::proofs::ValueTexts::value_unlabelled))]
pub fn write_value<S: AttributeSet, W: Sink>(
    writer: &mut W,
    value: &Value<'_, S>,
) -> Result<(), W::Error>
    ensures { OnOk result (WritesValue (S.rows (set_in value.now)) (kind_field_of (buffer_in value.now)) (payload_in value.now)
        (W.output writer.old) (W.output writer.new)) }
{
    let known = value.known();
    match known.label {
        Some(label) => write_content(writer, &label, known.content),
        None => write_unlabelled(writer, known.content),
    }
}

/// Writes the content of an attribute whose type has no row.
pub(crate) fn write_unlabelled<W: Sink>(
    writer: &mut W,
    content: Content<'_>,
) -> Result<(), W::Error>
    ensures { OnOk result (Gains (W.output writer.old) (W.output writer.new) (value_text None content.entry)) }
{
    match content {
        Content::Other(payload) => write_other(writer, payload),
        _ => Ok(()),
    }
}

/// Writes the content of an attribute, without its name. `label` is that of the attribute type. Nothing is written for a
/// content without a value and for lists.
///
/// # Errors
///
/// That of the writer.
pub fn write_content<W: Sink>(
    writer: &mut W,
    label: &KindLabel,
    content: Content<'_>,
) -> Result<(), W::Error>
    ensures { OnOk result (Gains (W.output writer.old) (W.output writer.new)
        (content_text (label_of label.now) content.entry)) }
{
    match content {
        Content::Nothing | Content::Addresses { .. } | Content::List { .. } => Ok(()),
        Content::Bool(is_on) => writer.put(if is_on {
            b"on".as_slice()
        } else {
            b"off".as_slice()
        }),
        Content::FlagOrBool(flag) => writer.put(if flag_is_on(flag) {
            b"on".as_slice()
        } else {
            b"off".as_slice()
        }),
        Content::Number {
            number,
            width,
            role,
            ..
        } => write_role(writer, label.names, label.quantity, role, width, number),
        Content::Signed(number) => put_signed(writer, number),
        Content::LowFlags(bits) => { write_flags(writer, label.names, Width::One, bits.into()) }
        Content::MaskedFlags { flags, mask } => {
            let bytes = bytes_of_two(flags, mask);
            write_fields(writer, MASKED_FIELDS, 0, label.names, &bytes)
        }
        Content::Pair(from, to) => write_fields(
            writer,
            PAIR_FIELDS,
            0,
            &[],
            &bytes_of_two(from, to),
        ),
        Content::Protocol(protocol) => write_protocol(writer, protocol),
        Content::Mac(address) => write_address(writer, &address),
        Content::Ipv4(address) => write_ipv4(writer, &address.octets()),
        Content::Ipv6(address) => write_ipv6_address(writer, address),
        Content::Bytes {
            look: Look::Address,
            bytes,
        } => write_bytes(writer, label.quantity, bytes),
        Content::Bytes {
            look: Look::Text,
            bytes,
        } => write_quoted(writer, without_nul(bytes)),
        Content::Bytes {
            look: Look::Held | Look::Peer,
            bytes,
        } => write_opaque_size(writer, bytes.len()),
        Content::Struct { layout, bytes } => {
            write_struct(writer, layout, label.fields, label.names, bytes)
        }
        Content::Numbers { of, bytes } => {
            write_places(writer, label.names, label.quantity, of, bytes)
        }
        Content::Limits { name, numbers } => write_limits(writer, name, numbers),
        Content::Other(payload) => write_other(writer, payload),
    }
}

/// Writes bytes: the number in them, if it counts something, or an address.
fn write_bytes<W: Sink>(writer: &mut W, quantity: Quantity, bytes: &[u8]) -> Result<(), W::Error>
    ensures { OnOk result (Gains (W.output writer.old) (W.output writer.new)
        (number_or_address quantity (counted_in quantity bytes.now) bytes.now)) }
{
    match counted_in(quantity, bytes) {
        Some(number) => write_number(writer, quantity, number),
        None => write_address(writer, bytes),
    }
}

/// Returns the little-endian number in 4 or 8 bytes. Returns `None` for other bytes, and if the number counts nothing.
#[tactic(auto, using(std::proofs::lemmas::Grind::common_steps))]
pub fn counted_in(quantity: Quantity, bytes: &[u8]) -> Option<u64>
    ensures { result ≡ counted_in quantity bytes.now }
{
    if !counts(quantity) {
        return None;
    }
    let count = bytes.len();
    if count == 4 {
        return Some(number_at(Width::Four, 0, bytes));
    }
    if count == 8 {
        return Some(number_at(Width::Eight, 0, bytes));
    }
    None
}

/// Checks whether a number counts something.
fn counts(quantity: Quantity) -> bool
    ensures { result ≡ counts quantity }
{
    match quantity {
        Quantity::Number => false,
        _ => true,
    }
}

fn write_ipv6_address<W: Sink>(writer: &mut W, address: Ipv6Addr) -> Result<(), W::Error>
    ensures { OnOk result (Gains (W.output writer.old) (W.output writer.new)
        (ip6_text (sixteen_octets address))) }
{
    let mut octets = [0; 16];
    address.put(&mut octets);
    write_ipv6(writer, &octets)
}

fn write_protocol<W: Sink>(writer: &mut W, protocol: VlanProtocol) -> Result<(), W::Error>
    ensures { OnOk result (Gains (W.output writer.old) (W.output writer.new) (protocol_text protocol)) }
{
    let number = u16::from(protocol);
    put_pieces(
        writer,
        &[
            Piece::Text(protocol_name(protocol)),
            Piece::Text(" (0x"),
            Piece::Hex(number as u64),
            Piece::Text(")"),
        ],
    )
}

/// Returns the name of a VLAN protocol.
pub fn protocol_name(protocol: VlanProtocol) -> &'static str
    ensures { result.now ≡ text_of vlan_protocols.labels (protocol_number protocol) }
{
    match protocol {
        VlanProtocol::Ieee8021Q => "802.1Q",
        VlanProtocol::Ieee8021Ad => "802.1ad",
    }
}

/// Writes the payload of an attribute whose type has no row.
pub(crate) fn write_other<W: Sink>(writer: &mut W, payload: &[u8]) -> Result<(), W::Error>
    ensures { OnOk result (Gains (W.output writer.old) (W.output writer.new) (other_text payload.now)) }
{
    if payload.is_empty() {
        return writer.put(b"(empty)");
    }
    writer.put(b"hex ")?;
    write_hex(writer, payload)
}
