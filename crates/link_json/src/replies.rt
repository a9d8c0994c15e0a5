//! The kernel's replies.

ghost use Rattle.std.specs.Prelude.{◌≡◌, ◌++◌, OnOk, IfOk};
ghost use Rattle.json.specs.Tree.{json_tokens};
ghost use Rattle.link_json.specs.Message.{ShowsReply, SaysReply, WritesFields, errno_json, says_something};
ghost use Rattle.link_json.specs.List.{WritesValue};

use crate::document::Document;
use crate::lists::write_array;
use crate::parts::write_name;
use link_messages::Acknowledgement;
use link_show::{errno_name, has_result};
use netlink_packet_route::Family;
use std::alloc::AllocError;

/// Writes the member for a reply. An NLMSG_DONE has it only if it says something. Returns whether no attribute is an error.
pub(crate) fn write_reply(
    doc: &mut Document,
    reply: &Acknowledgement<'_>,
) -> Result<bool, AllocError>
    ensures { IfOk result (WritesFields (ShowsReply reply.now) doc.old doc.new) }
{
    if !says_something(reply) {
        return Ok(true);
    }
    doc.key("reply")?;
    write_said(doc, reply)
}

/// Checks whether a reply has a member. An NLMSG_DONE that only ends a dump has none.
fn says_something(reply: &Acknowledgement<'_>) -> bool
    ensures { result ≡ says_something reply.now }
{
    has_result(reply) | !reply.list.bytes.is_empty()
}

/// Writes what the kernel says: its result, and the attributes. Returns whether none is an error.
fn write_said(doc: &mut Document, reply: &Acknowledgement<'_>) -> Result<bool, AllocError>
    ensures { IfOk result (WritesValue (SaysReply reply.now) doc.old doc.new) }
{
    doc.begin_object()?;
    doc.key("errno")?;
    write_errno(doc, reply)?;
    doc.key("attrs")?;
    let well = write_array(doc, 0, Family::Reply, reply.list)?;
    doc.end_object()?;
    Ok(well)
}

/// Writes the error of a reply, with its sign, and the name of an errno.
fn write_errno(doc: &mut Document, reply: &Acknowledgement<'_>) -> Result<(), AllocError>
    ensures { OnOk result (doc.new ≡ doc.old ++ json_tokens (errno_json reply.now.error)) }
{
    doc.begin_object()?;
    doc.key("number")?;
    doc.signed(reply.error)?;
    doc.key("name")?;
    write_name(doc, errno_name(reply))?;
    doc.end_object()
}
