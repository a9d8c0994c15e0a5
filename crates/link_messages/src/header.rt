//! The header of a message about a link.

ghost use Rattle.std.specs.Prelude.{◌≡◌, ◌≤◌, ◌↔◌, length, drop, IsTrue, MatchResult};
ghost use Rattle.link_messages.specs.Message.{packet_of};
ghost use Rattle.link_messages.specs.Finding.{stretch_of};
ghost use Rattle.link_messages.specs.Link.{attributes_of};
ghost use Rattle.link_messages.specs.Header.{IsLinkType, IsPropertyType, IsAnyLinkType, header_in, HasLinkHeader, HasNoLinkHeader};

use crate::buffer_parts::{Message, Payload};
use crate::message::MessageError;
use crate::message_types::{
    RTM_DELLINK, RTM_DELLINKPROP, RTM_GETLINK, RTM_GETLINKPROP, RTM_NEWLINK, RTM_NEWLINKPROP,
    RTM_SETLINK,
};
use link_base::classes::peer::PEER_HEADER;
use link_base::{u16_at, u32_at};

/// The fields of a `struct ifinfomsg` (`include/uapi/linux/rtnetlink.h`).
#[derive(Clone, Copy, Debug, PartialEq, Eq)]
pub struct LinkHeader {
    /// `ifi_family`: 7 (AF_BRIDGE) in messages about bridges and bridge ports, usually 0 (AF_UNSPEC) in others
    /// (`include/linux/socket.h`).
    pub family: u8,
    /// `ifi_type`: the type of the device, `ARPHRD_..` (`include/uapi/linux/if_arp.h`).
    pub kind: u16,
    /// `ifi_index`: the interface index, or 0.
    pub index: i32,
    /// `ifi_flags`: a set of `IFF_..` (`include/uapi/linux/if.h`).
    pub flags: u32,
    /// `ifi_change`: the flags that a request changes.
    pub change: u32,
}

/// Parses the `struct ifinfomsg` of a message about a link, and returns it and the list of attributes that follows it.
///
/// # Errors
///
/// `OtherType` unless [`is_any_link_type`].
/// `ShortLink` if the message is shorter than the headers `struct nlmsghdr` and `struct ifinfomsg`, 32 bytes.
pub fn link_header<'a>(message: &Message<'a>) -> Result<(LinkHeader, Payload<'a>), MessageError>
    ensures { MatchResult result
        (λ read. HasLinkHeader (packet_of message.now) read.0
        × (stretch_of read.1 ≡ attributes_of message.now.at (packet_of message.now)))
        (HasNoLinkHeader message.now.at (packet_of message.now)) }
{
    let at = message.at;
    let kind = message.kind;
    if !is_any_link_type(kind) {
        return Err(MessageError::OtherType { at, kind });
    }
    let body = message.payload;
    if body.len() < 16 {
        let length = 16 + body.len();
        return Err(MessageError::ShortLink { at, length });
    }
    let bytes = &body[16..];
    Ok((header_of(body), Payload { at: at + 32, bytes }))
}

/// Splits the payload of a peer (`VETH_INFO_PEER`, `include/uapi/linux/veth.h`) into its `struct ifinfomsg` and the list of
/// attributes that follows it. `payload` must have at least 16 bytes.
pub fn peer_parts(payload: &[u8]) -> (LinkHeader, &[u8])
    requires { 16 ≤ length payload.now }
    ensures header { result.0 ≡ header_in payload.now }
    ensures list { result.1.now ≡ drop 16 payload.now }
{
    (header_of(payload), &payload[PEER_HEADER..])
}

/// Checks whether messages of type `kind` are about a link, so that they have a `struct ifinfomsg`: RTM_NEWLINK, RTM_DELLINK,
/// RTM_GETLINK, RTM_SETLINK, RTM_NEWLINKPROP, RTM_DELLINKPROP and RTM_GETLINKPROP.
pub fn is_any_link_type(kind: u16) -> bool
    ensures { IsTrue result ↔ IsAnyLinkType kind }
{
    is_link_type(kind) || is_property_type(kind)
}

/// Checks whether messages of type `kind` are about a link itself.
fn is_link_type(kind: u16) -> bool
    ensures { IsTrue result ↔ IsLinkType kind }
{
    kind == RTM_NEWLINK || kind == RTM_DELLINK || kind == RTM_GETLINK || kind == RTM_SETLINK
}

/// Checks whether messages of type `kind` are about properties of a link.
fn is_property_type(kind: u16) -> bool
    ensures { IsTrue result ↔ IsPropertyType kind }
{
    kind == RTM_NEWLINKPROP || kind == RTM_DELLINKPROP || kind == RTM_GETLINKPROP
}

/// Parses the `struct ifinfomsg` with which `body` starts.
fn header_of(body: &[u8]) -> LinkHeader
    requires { 16 ≤ length body.now }
    ensures { result ≡ header_in body.now }
{
    LinkHeader {
        family: body[0],
        kind: u16_at(body, 2),
        index: i32::from_le_bytes([body[4], body[5], body[6], body[7]]),
        flags: u32_at(body, 8),
        change: u32_at(body, 12),
    }
}
