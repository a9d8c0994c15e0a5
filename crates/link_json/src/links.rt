//! Messages about links: the `struct ifinfomsg`, and all attributes.

ghost use Rattle.std.specs.Prelude.{◌≡◌, ◌++◌, OnOk, IfOk};
ghost use Rattle.link_messages.specs.Finding.{stretch_of};
ghost use Rattle.link_json.specs.Doc.{fields_tokens};
ghost use Rattle.link_json.specs.Value.{header_fields};
ghost use Rattle.link_json.specs.Link.{ShowsLink};
ghost use Rattle.link_json.specs.List.{WritesValue};

use crate::document::Document;
use crate::lists::write_array;
use crate::numbers::{write_enum, write_flags};
use link_messages::{LinkHeader, Payload};
use link_show::message_names::{ADDRESS_FAMILIES, DEVICE_FLAGS, DEVICE_TYPES};
use netlink_packet_route::Family;
use std::alloc::AllocError;

/// Writes a link: the fields of its `struct ifinfomsg`, and its attributes. Returns whether none is an error.
pub(crate) fn write_link(
    doc: &mut Document,
    header: &LinkHeader,
    list: Payload<'_>,
) -> Result<bool, AllocError>
    ensures { IfOk result (WritesValue (ShowsLink header.now (stretch_of list.entry)) doc.old doc.new) }
{
    doc.begin_object()?;
    write_link_header(doc, header)?;
    doc.key("attrs")?;
    let well = write_array(doc, header.family, Family::Link, list)?;
    doc.end_object()?;
    Ok(well)
}

/// Writes the fields of a `struct ifinfomsg` as members.
pub(crate) fn write_link_header(doc: &mut Document, header: &LinkHeader) -> Result<(), AllocError>
    ensures { OnOk result (doc.new ≡ doc.old ++ fields_tokens (header_fields header.now)) }
{
    doc.key("family")?;
    write_enum(doc, ADDRESS_FAMILIES, header.family.into())?;
    doc.key("type")?;
    write_enum(doc, DEVICE_TYPES, header.kind.into())?;
    doc.key("index")?;
    doc.signed(header.index)?;
    doc.key("flags")?;
    write_flags(doc, DEVICE_FLAGS, header.flags.into())?;
    doc.key("change")?;
    write_flags(doc, DEVICE_FLAGS, header.change.into())
}
