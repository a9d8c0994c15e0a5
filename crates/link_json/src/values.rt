//! Values, by the form of their content.

ghost use Rattle.std.specs.Prelude.{◌≡◌, ◌++◌, OnOk, option_map};
ghost use Rattle.json.specs.Json.{string};
ghost use Rattle.json.specs.Tree.{json_tokens};
ghost use Rattle.link_base.specs.Buffer.{kind_field_of, payload_of};
ghost use Rattle.link_base.specs.IpAddress.{sixteen_octets};
ghost use Rattle.link_base.specs.Labels.{label_of};
ghost use Rattle.link_show.specs.Octets.{ip6_text};
ghost use Rattle.link_show.specs.Value.{counted_in};
ghost use Rattle.link_json.specs.Doc.{fields_tokens};
ghost use Rattle.link_json.specs.Value.{content_json, number_or_address, protocol_json, bytes_unit, unit_in, unit_of, unit_fields, raw_json, unnamed_json};

use crate::document::Document;
use crate::numbers::{write_flags, write_numbers};
use crate::parts::{write_named, write_number_field};
use crate::structs::{write_limits, write_object, write_role, write_struct};
use link_base::classes::flag_or_bool::flag_is_on;
use link_base::rows::form::Look;
use link_base::rows::label::{KindLabel, Quantity};
use link_base::views::content::Content;
use link_base::{Address, NlaBuffer, VlanProtocol};
use link_messages::without_nul;
use link_show::{MASKED_FIELDS, PAIR_FIELDS, TYPE_FLAGS, bytes_of_two, counted_in, protocol_name};
use std::alloc::AllocError;
use std::net::Ipv6Addr;

/// Writes the content of an attribute. `label` is that of the attribute type. Of a list, the bytes are written.
pub(crate) fn write_content(
    doc: &mut Document,
    label: &KindLabel,
    content: Content<'_>,
) -> Result<(), AllocError>
    ensures { OnOk result (doc.new ≡ doc.old ++ json_tokens (content_json (label_of label.now) content.entry)) }
{
    match content {
        Content::Nothing => doc.boolean(true),
        Content::Bool(is_on) => doc.boolean(is_on),
        Content::FlagOrBool(flag) => doc.boolean(flag_is_on(flag)),
        Content::Number { number, role, .. } => write_role(doc, label.names, role, number),
        Content::Signed(number) => doc.signed(number),
        Content::LowFlags(bits) => write_flags(doc, label.names, bits.into()),
        Content::MaskedFlags { flags, mask } => {
            let bytes = bytes_of_two(flags, mask);
            write_object(doc, MASKED_FIELDS, label.names, &bytes)
        }
        Content::Pair(from, to) => write_object(doc, PAIR_FIELDS, &[], &bytes_of_two(from, to)),
        Content::Protocol(protocol) => write_protocol(doc, protocol),
        Content::Mac(address) => doc.address(&address),
        Content::Ipv4(address) => doc.ip(&address.octets()),
        Content::Ipv6(address) => write_ipv6(doc, address),
        Content::Bytes {
            look: Look::Address,
            bytes,
        } => write_bytes(doc, label.quantity, bytes),
        Content::Bytes {
            look: Look::Text,
            bytes,
        } => doc.text(without_nul(bytes)),
        Content::Bytes {
            look: Look::Held | Look::Peer,
            bytes,
        } => doc.opaque(bytes),
        Content::Struct { layout, bytes } => {
            write_struct(doc, layout, label.fields, label.names, bytes)
        }
        Content::Numbers { of, bytes } => write_numbers(doc, label.names, of, bytes),
        Content::Limits { name, numbers } => write_limits(doc, name, numbers),
        Content::Addresses { list, .. } | Content::List { list, .. } => doc.opaque(list),
        Content::Other(payload) => doc.opaque(payload),
    }
}

/// Writes bytes: the number in them, if it counts something, or an address.
fn write_bytes(doc: &mut Document, quantity: Quantity, bytes: &[u8]) -> Result<(), AllocError>
    ensures { OnOk result (doc.new ≡ doc.old
        ++ json_tokens (number_or_address (counted_in quantity bytes.now) bytes.now)) }
{
    match counted_in(quantity, bytes) {
        Some(number) => doc.number(number),
        None => doc.address(bytes),
    }
}

fn write_ipv6(doc: &mut Document, address: Ipv6Addr) -> Result<(), AllocError>
    ensures { OnOk result (doc.new ≡ doc.old ++ json_tokens (string (ip6_text (sixteen_octets address)))) }
{
    let mut octets = [0; 16];
    address.put(&mut octets);
    doc.ip(&octets)
}

fn write_protocol(doc: &mut Document, protocol: VlanProtocol) -> Result<(), AllocError>
    ensures { OnOk result (doc.new ≡ doc.old ++ json_tokens (protocol_json protocol)) }
{
    let number = u16::from(protocol);
    write_named(doc, number.into(), Some(protocol_name(protocol)))
}

/// Writes the member with the unit of a content, if it has one.
pub(crate) fn write_unit(
    doc: &mut Document,
    quantity: Quantity,
    content: Content<'_>,
) -> Result<(), AllocError>
    ensures { OnOk result (doc.new ≡ doc.old ++ fields_tokens (unit_fields (unit_in quantity content.entry))) }
{
    match unit_in(quantity, content) {
        Some(unit) => {
            doc.key("unit")?;
            doc.string(unit)
        }
        None => Ok(()),
    }
}

/// Returns the unit of a content.
fn unit_in(quantity: Quantity, content: Content<'_>) -> Option<&'static str>
    ensures { option_map (λ text. text.now) result ≡ unit_in quantity content.entry }
{
    match content {
        Content::Bytes {
            look: Look::Address,
            bytes,
        } => bytes_unit(quantity, bytes),
        _ => unit_of(quantity),
    }
}

/// Returns the unit of bytes: that of the number in them, if there is one.
fn bytes_unit(quantity: Quantity, bytes: &[u8]) -> Option<&'static str>
    ensures { option_map (λ text. text.now) result ≡ bytes_unit quantity (counted_in quantity bytes.now) }
{
    match counted_in(quantity, bytes) {
        Some(_) => unit_of(quantity),
        None => None,
    }
}

/// Returns what numbers count.
fn unit_of(quantity: Quantity) -> Option<&'static str>
    ensures { option_map (λ text. text.now) result ≡ unit_of quantity }
{
    match quantity {
        Quantity::ClockTicks => Some("1/100 s"),
        Quantity::Milliseconds => Some("ms"),
        Quantity::Seconds => Some("s"),
        Quantity::BitsPerSecond => Some("bit/s"),
        Quantity::Ohms => Some("ohm"),
        Quantity::Nanoseconds => Some("ns"),
        Quantity::Hertz => Some("Hz"),
        _ => None,
    }
}

/// Writes the value of an attribute that is not decoded.
fn write_raw(doc: &mut Document, buffer: NlaBuffer<'_>) -> Result<(), AllocError>
    ensures { OnOk result (doc.new ≡ doc.old
        ++ json_tokens (raw_json (kind_field_of buffer.entry) (payload_of buffer.entry))) }
{
    let kind = buffer.kind();
    doc.begin_object()?;
    write_number_field(doc, "type", kind as u64)?;
    doc.key("flags")?;
    write_flags(doc, TYPE_FLAGS, (buffer.raw_kind() - kind) as u64)?;
    doc.key("hex")?;
    doc.hex(buffer.value())?;
    doc.end_object()
}

/// Writes an attribute whose type has no name.
pub(crate) fn write_unnamed(doc: &mut Document, buffer: NlaBuffer<'_>) -> Result<(), AllocError>
    ensures { OnOk result (doc.new ≡ doc.old
        ++ json_tokens (unnamed_json (kind_field_of buffer.entry) (payload_of buffer.entry))) }
{
    doc.begin_object()?;
    doc.key("name")?;
    doc.digits(buffer.kind() as u64)?;
    doc.key("value")?;
    write_raw(doc, buffer)?;
    doc.end_object()
}
