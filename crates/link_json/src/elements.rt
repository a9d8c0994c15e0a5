//! The elements for attributes: a name, a value, and a unit.

ghost use Rattle.std.specs.Prelude.{◌≡◌, ◌++◌, ◌∷◌, [], length, IsTrue, OnOk};
ghost use Rattle.json.specs.Token.{string};
ghost use Rattle.json.specs.Tree.{json_tokens};
ghost use Rattle.link_base.specs.Buffer.{payload_of};
ghost use Rattle.link_base.specs.Labels.{label_in, label_of};
ghost use Rattle.link_messages.specs.Shown.{nest_of};
ghost use Rattle.link_json.specs.Doc.{each_tokens};
ghost use Rattle.link_json.specs.List.{ShowsFlat, ShowsPlain, nest_name, held_front, nest_front, nest_back, shows_leaf, state_json, if_sized};
ghost use Rattle.link_json.specs.List.{WritesOne, WritesAddresses};

use crate::document::Document;
use crate::links::write_link_header;
use crate::numbers::write_enum;
use crate::values::{write_content, write_unit, write_unnamed};
use link_base::rows::label::KindLabel;
use link_base::views::content::{Content, Known};
use link_base::{NamedNumber, NlaBuffer};
use link_messages::{HeldList, LinkHeader};
use netlink_packet_route::link::BridgePortState;
use std::alloc::AllocError;

/// Begins an attribute that holds a list: writes its name, and begins its value.
pub(crate) fn begin_nest(doc: &mut Document, held: &HeldList<'_>) -> Result<(), AllocError>
    ensures { OnOk result (doc.new ≡ doc.old ++ nest_front (nest_of held.now)) }
{
    doc.begin_object()?;
    doc.key("name")?;
    write_nest_name(doc, held.label)?;
    doc.key("value")?;
    begin_held(doc, held.header)
}

/// Begins the array of a list, in a peer behind its header.
fn begin_held(doc: &mut Document, header: Option<LinkHeader>) -> Result<(), AllocError>
    ensures { OnOk result (doc.new ≡ doc.old ++ held_front header) }
{
    match header {
        Some(header) => {
            doc.begin_object()?;
            write_link_header(doc, &header)?;
            doc.key("attrs")?;
            doc.begin_array()
        }
        None => doc.begin_array(),
    }
}

/// Ends an attribute that holds a list.
pub(crate) fn end_nest(doc: &mut Document, header: Option<LinkHeader>) -> Result<(), AllocError>
    ensures { OnOk result (doc.new ≡ doc.old ++ nest_back header) }
{
    doc.end_array()?;
    match header {
        Some(_) => {
            doc.end_object()?;
            doc.end_object()
        }
        None => doc.end_object(),
    }
}

/// Writes the name of an attribute that holds a list. One without a row is an `IFLA_PROTINFO`.
fn write_nest_name(doc: &mut Document, label: &Option<KindLabel>) -> Result<(), AllocError>
    ensures { OnOk result (doc.new ≡ doc.old ++ string (nest_name (label_in label.now)) ∷ []) }
{
    match label {
        Some(label) => doc.short_name(label.prefix, label.name),
        None => doc.string("protinfo"),
    }
}

/// Writes an attribute that holds no list: the STP state of a bridge port in an `IFLA_PROTINFO`, or another one.
pub(crate) fn write_leaf(
    doc: &mut Document,
    is_state: bool,
    known: &Known<'_>,
    buffer: NlaBuffer<'_>,
) -> Result<(), AllocError>
    requires { IsTrue is_state → length (payload_of buffer) ≡ 1 }
    ensures { OnOk result (WritesOne (shows_leaf is_state (label_in known.now.label) buffer.entry known.now.content) doc.old doc.new) }
{
    if is_state {
        return write_state(doc, buffer.value()[0]);
    }
    write_plain(doc, known, buffer)
}

/// Writes an `IFLA_PROTINFO` that is the STP state of a bridge port.
fn write_state(doc: &mut Document, state: u8) -> Result<(), AllocError>
    ensures { OnOk result (doc.new ≡ doc.old ++ json_tokens (state_json (state ∷ []))) }
{
    doc.begin_object()?;
    doc.key("name")?;
    doc.string("protinfo")?;
    doc.key("value")?;
    write_enum(doc, BridgePortState::names(), state.into())?;
    doc.end_object()
}

/// Writes an attribute that holds no list: by its label, or by its number, if it has none.
fn write_plain(
    doc: &mut Document,
    known: &Known<'_>,
    buffer: NlaBuffer<'_>,
) -> Result<(), AllocError>
    ensures { OnOk result (WritesOne (ShowsPlain (label_in known.now.label) buffer.entry known.now.content) doc.old doc.new) }
{
    match &known.label {
        Some(label) => write_labelled(doc, label, buffer, known.content),
        None => write_unnamed(doc, buffer),
    }
}

/// Writes an attribute with this label and this content.
fn write_labelled(
    doc: &mut Document,
    label: &KindLabel,
    buffer: NlaBuffer<'_>,
    content: Content<'_>,
) -> Result<(), AllocError>
    ensures { OnOk result (WritesOne (ShowsPlain (Some (label_of label.now)) buffer.entry content.entry) doc.old doc.new) }
{
    doc.begin_object()?;
    doc.key("name")?;
    doc.short_name(label.prefix, label.name)?;
    doc.key("value")?;
    write_flat(doc, label, content)?;
    write_unit(doc, label.quantity, content)?;
    doc.end_object()
}

/// Writes the value of an attribute that holds no list of attributes with values.
fn write_flat(doc: &mut Document, label: &KindLabel, content: Content<'_>) -> Result<(), AllocError>
    ensures { OnOk result (WritesOne (ShowsFlat (label_of label.now) content.entry) doc.old doc.new) }
{
    match content {
        Content::Addresses { list, size } => {
            doc.begin_array()?;
            write_addresses(doc, list, size)?;
            doc.end_array()
        }
        _ => write_content(doc, label, content),
    }
}

/// Writes the addresses of `size` bytes in a list.
fn write_addresses(doc: &mut Document, list: &[u8], size: usize) -> Result<(), AllocError>
    ensures { OnOk result (WritesAddresses size list.now doc.old doc.new) }
{
    let mut rest = list;
    while let Ok((attribute, after)) = NlaBuffer::split_first(rest) {
        write_address_of(doc, attribute.value(), size)?;
        rest = after;
    }
    Ok(())
}

/// Writes an IP address, if it has `size` bytes.
fn write_address_of(doc: &mut Document, address: &[u8], size: usize) -> Result<(), AllocError>
    ensures { OnOk result (doc.new ≡ doc.old ++ each_tokens (if_sized size address.now)) }
{
    if address.len() != size {
        return Ok(());
    }
    doc.ip(address)
}
