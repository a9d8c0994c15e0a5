//! The documents of messages.

ghost use Rattle.std.specs.Prelude.{◌≡◌, ◌++◌, ◌∷◌, [], true, false, OnOk, IfOk, codes};
ghost use Rattle.json.specs.Json.{boolean};
ghost use Rattle.json.specs.Token.{end_object};
ghost use Rattle.json.specs.Tree.{json_tokens};
ghost use Rattle.link_messages.specs.Acknowledgement.{IsReplyType};
ghost use Rattle.link_messages.specs.Header.{IsAnyLinkType};
ghost use Rattle.link_json.specs.Doc.{fields_tokens};
ghost use Rattle.link_json.specs.Message.{ShowsDocument, ShowsBody, WritesFields, message_error, message_fields, whole_document};
ghost use Rattle.link_json.specs.List.{WritesValue};

use crate::document::Document;
use crate::links::write_link;
use crate::numbers::{write_enum, write_flags};
use crate::parts::write_number_field;
use crate::place::Place;
use crate::replies::write_reply;
use link_messages::message_types::{NLMSG_DONE, NLMSG_ERROR};
use link_messages::{Message, MessageError, is_any_link_type, link_header, read_acknowledgement};
use link_show::message_names::{MESSAGE_TYPES, flag_names};
use link_show::{is_general, offset_of};
use std::alloc::AllocError;

/// Writes a document that only says where it is from.
pub(crate) fn store_empty<P: Place>(doc: &mut Document, place: &P) -> Result<(), AllocError>
    ensures { OnOk result (doc.new ≡ doc.old ++ json_tokens (whole_document (P.fields place.now) [] true)) }
{
    doc.begin_object()?;
    place.write_fields(doc)?;
    end_document(doc, true)
}

/// Writes a document with an error.
pub(crate) fn store_error<P: Place>(
    doc: &mut Document,
    place: &P,
    error: MessageError,
) -> Result<(), AllocError>
    ensures { OnOk result (doc.new ≡ doc.old
        ++ json_tokens (whole_document (P.fields place.now) (message_error error ∷ []) false)) }
{
    doc.begin_object()?;
    place.write_fields(doc)?;
    write_message_error(doc, error)?;
    end_document(doc, false)
}

/// Writes the document of a message. Returns whether it has no error.
pub(crate) fn store_message<P: Place>(
    doc: &mut Document,
    place: &P,
    message: &Message<'_>,
) -> Result<bool, AllocError>
    ensures { IfOk result (WritesValue (ShowsDocument (P.fields place.now) message.now) doc.old doc.new) }
{
    doc.begin_object()?;
    place.write_fields(doc)?;
    write_message_fields(doc, message)?;
    let well = write_body(doc, message)?;
    end_document(doc, well)?;
    Ok(well)
}

/// Writes the last member of a document, and ends it.
pub(crate) fn end_document(doc: &mut Document, well: bool) -> Result<(), AllocError>
    ensures { OnOk result (doc.new ≡ doc.old
        ++ (fields_tokens ((codes "ok", boolean well) ∷ []) ++ end_object ∷ [])) }
{
    doc.key("ok")?;
    doc.boolean(well)?;
    doc.end_object()
}

/// Writes the fields of a `struct nlmsghdr`.
fn write_message_fields(doc: &mut Document, message: &Message<'_>) -> Result<(), AllocError>
    ensures { OnOk result (doc.new ≡ doc.old ++ fields_tokens (message_fields message.now)) }
{
    let length = 16 + message.payload.len();
    write_number_field(doc, "len", length as u64)?;
    doc.key("type")?;
    write_enum(doc, MESSAGE_TYPES, message.kind as u64)?;
    doc.key("flags")?;
    write_flags(doc, flag_names(message.kind), message.flags as u64)?;
    write_number_field(doc, "seq", message.sequence as u64)?;
    write_number_field(doc, "pid", message.port as u64)
}

/// Writes what a message is, besides its header. Returns whether it has no error.
fn write_body(doc: &mut Document, message: &Message<'_>) -> Result<bool, AllocError>
    ensures { IfOk result (WritesFields (ShowsBody message.now) doc.old doc.new) }
{
    match message.kind {
        NLMSG_ERROR | NLMSG_DONE => write_acknowledgement(doc, message),
        kind if is_any_link_type(kind) => write_about_link(doc, message),
        _ => Ok(true),
    }
}

/// Writes a message about a link. A request in the general form has no more members.
fn write_about_link(doc: &mut Document, message: &Message<'_>) -> Result<bool, AllocError>
    requires { IsAnyLinkType message.now.kind }
    ensures { IfOk result (WritesFields (ShowsBody message.now) doc.old doc.new) }
{
    if is_general(message) {
        return Ok(true);
    }
    match link_header(message) {
        Ok((header, list)) => {
            doc.key("link")?;
            write_link(doc, &header, list)
        }
        Err(error) => {
            write_message_error(doc, error)?;
            Ok(false)
        }
    }
}

/// Writes an NLMSG_ERROR or an NLMSG_DONE.
fn write_acknowledgement(doc: &mut Document, message: &Message<'_>) -> Result<bool, AllocError>
    requires { IsReplyType message.now.kind }
    ensures { IfOk result (WritesFields (ShowsBody message.now) doc.old doc.new) }
{
    match read_acknowledgement(message) {
        Ok(reply) => write_reply(doc, &reply),
        Err(error) => {
            write_message_error(doc, error)?;
            Ok(false)
        }
    }
}

/// Writes the member for an error of a message.
pub(crate) fn write_message_error(doc: &mut Document, error: MessageError) -> Result<(), AllocError>
    ensures { OnOk result (doc.new ≡ doc.old ++ fields_tokens (message_error error ∷ [])) }
{
    doc.key("error")?;
    doc.begin_object()?;
    write_number_field(doc, "at", offset_of(error) as u64)?;
    doc.key("text")?;
    doc.reason(error)?;
    doc.end_object()
}
