//! The kernel's replies to requests.

ghost use Rattle.std.specs.Prelude.{◌≡◌, ◌≢◌, ◌≤◌, length, MatchResult};
ghost use Rattle.link_messages.specs.Message.{packet_of};
ghost use Rattle.link_messages.specs.Finding.{stretch_of};
ghost use Rattle.link_messages.specs.Acknowledgement.{IsAcknowledgement, IsNoAcknowledgement, IsReply};
ghost use Rattle.link_messages.specs.Acknowledgement.{attributes_start, attributes_of, result_in};

use crate::buffer_parts::{Message, Payload};
use crate::message::MessageError;
use crate::message_types::{NLMSG_DONE, NLMSG_ERROR};
use link_base::u32_at;
use netlink_packet_route::link::padded;

// Flags of NLMSG_ERROR and NLMSG_DONE (`include/uapi/linux/netlink.h`).

const NLM_F_CAPPED: u16 = 0x100;

const NLM_F_ACK_TLVS: u16 = 0x200;

/// The kernel's reply to a request: an NLMSG_ERROR (`struct nlmsgerr`, `include/uapi/linux/netlink.h`) or, at the end of
/// a dump, an NLMSG_DONE.
#[derive(Clone, Copy, Debug, PartialEq, Eq)]
pub struct Acknowledgement<'a> {
    /// Whether it is an NLMSG_DONE. Otherwise it is an NLMSG_ERROR.
    pub is_done: bool,
    /// If it is negative, a negated errno. 0 is success, and of an NLMSG_DONE also any positive number. 0 also if an
    /// NLMSG_DONE has no result: programs send some with fewer than four bytes.
    pub error: i32,
    /// Its attributes, `NLMSGERR_ATTR_..`: a list that the set `reply` parses, `Family::Reply`. It is empty if the message
    /// has none.
    pub list: Payload<'a>,
}

/// Parses an NLMSG_ERROR or an NLMSG_DONE. It has attributes only if it has the flag NLM_F_ACK_TLVS.
///
/// # Errors
///
/// `OtherType` if the message is of another type. `ShortError` if the payload of an NLMSG_ERROR is shorter than a
/// `struct nlmsgerr`, which has 20 bytes.
pub fn read_acknowledgement<'a>(message: &Message<'a>) -> Result<Acknowledgement<'a>, MessageError>
    ensures { MatchResult result (IsAcknowledgement message.now.at (packet_of message.now))
        (IsNoAcknowledgement message.now.at (packet_of message.now)) }
{
    let at = message.at;
    let kind = message.kind;
    if kind == NLMSG_DONE {
        return Ok(reply_of(message, true));
    }
    if kind != NLMSG_ERROR {
        return Err(MessageError::OtherType { at, kind });
    }
    let body = message.payload;
    if body.len() < 20 {
        let length = 16 + body.len();
        return Err(MessageError::ShortError { at, length });
    }
    Ok(reply_of(message, false))
}

/// Parses a reply.
fn reply_of<'a>(message: &Message<'a>, is_done: bool) -> Acknowledgement<'a>
    requires { IsReply is_done (packet_of message.now) }
    ensures { IsAcknowledgement message.now.at (packet_of message.now) result }
{
    Acknowledgement {
        is_done,
        error: result_in(message.payload),
        list: attributes_of(message),
    }
}

/// Returns the error of an NLMSG_ERROR, or the result of an NLMSG_DONE: 0 if it has none.
fn result_in(body: &[u8]) -> i32
    ensures { result ≡ result_in body.now }
{
    if body.len() < 4 {
        return 0;
    }
    i32::from_le_bytes([body[0], body[1], body[2], body[3]])
}

/// Returns the attributes of a reply.
fn attributes_of<'a>(message: &Message<'a>) -> Payload<'a>
    requires { message.now.kind ≢ 3 → 20 ≤ length message.now.payload.now }
    ensures { stretch_of result ≡ attributes_of message.now.at (packet_of message.now) }
{
    let body = message.payload;
    let start = attributes_start(message.kind, message.flags, body);
    Payload {
        at: message.at + 16 + start,
        bytes: &body[start..],
    }
}

/// Returns the offset of the attributes in the payload of a reply: the end of the payload if there are none.
fn attributes_start(kind: u16, flags: u16, body: &[u8]) -> usize
    requires { kind ≢ 3 → 20 ≤ length body.now }
    ensures { result ≡ attributes_start kind flags body.now }
{
    if flags & NLM_F_ACK_TLVS == 0 {
        return body.len();
    }
    if kind == NLMSG_DONE {
        return body.len().min(4);
    }
    if flags & NLM_F_CAPPED != 0 {
        return 20;
    }
    let request = u32_at(body, 4) as usize;
    (4 + padded(request.max(16))).min(body.len())
}
