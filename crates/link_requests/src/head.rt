//! The head of a request: the fields of its two headers.

ghost use Rattle.std.specs.Prelude.{◌≡◌, pos};
ghost use Rattle.link_requests.specs.Request.{head_with, bridge_with, is_request, needs_index, head_error};

use crate::misfit::RequestError;
use link_messages::link_types::AF_BRIDGE;
use link_messages::message_types::{
    RTM_DELLINK, RTM_DELLINKPROP, RTM_GETLINK, RTM_NEWLINK, RTM_NEWLINKPROP, RTM_SETLINK,
};

// Flags of requests (`include/uapi/linux/netlink.h`).

const NLM_F_ACK: u16 = 4;

const NLM_F_DUMP: u16 = 0x300;

const NLM_F_EXCL: u16 = 0x200;

const NLM_F_CREATE: u16 = 0x400;

const NLM_F_APPEND: u16 = 0x800;

/// The headers of a request (`struct nlroute_head`): the fields of a `struct nlmsghdr` and a `struct ifinfomsg`
/// (`include/uapi/linux/netlink.h`, `rtnetlink.h`). The functions leave those that they do not name 0.
#[repr(C)]
#[derive(Clone, Copy, Debug, PartialEq, Eq)]
pub struct Head {
    /// `nlmsg_type`: RTM_NEWLINK, RTM_DELLINK, RTM_GETLINK, RTM_SETLINK, RTM_NEWLINKPROP (108) or
    /// RTM_DELLINKPROP (109), `type` in C.
    pub kind: u16,
    /// `nlmsg_flags`: a set of `NLM_F_..`. NLM_F_REQUEST is added.
    pub flags: u16,
    /// `nlmsg_seq`.
    pub sequence: u32,
    /// `nlmsg_pid`, the port ID of the sender: 0, or that of the socket.
    pub port: u32,
    /// `ifi_family`: AF_UNSPEC (0), or AF_BRIDGE (7) in requests about bridge ports and their VLANs.
    pub address_family: u8,
    /// Not used.
    pub unused: u8,
    /// `ifi_type`: the type of the device, `ARPHRD_..`. Linux ignores it.
    pub link_type: u16,
    /// `ifi_index`: the interface index, or 0.
    pub index: i32,
    /// `ifi_flags`: a set of `IFF_..`.
    pub link_flags: u32,
    /// `ifi_change`: the flags that the request changes.
    pub change: u32,
}

impl Head {
    /// Returns the head of a request of this type, with these flags, about the link with this interface index.
    pub fn new(kind: u16, flags: u16, index: i32) -> Self
        ensures { result ≡ head_with kind flags index }
    {
        Head {
            kind,
            flags,
            sequence: 0,
            port: 0,
            address_family: 0,
            unused: 0,
            link_type: 0,
            index,
            link_flags: 0,
            change: 0,
        }
    }

    /// Returns the head of a request that adds a link, unless its name is taken: RTM_NEWLINK with NLM_F_CREATE, NLM_F_EXCL and
    /// NLM_F_ACK.
    pub fn create() -> Self
        ensures { result ≡ head_with 16 0x604 (pos 0) }
    {
        Self::new(RTM_NEWLINK, NLM_F_ACK | NLM_F_CREATE | NLM_F_EXCL, 0)
    }

    /// Returns the head of a request that changes a link: RTM_NEWLINK with NLM_F_ACK. An `IFLA_IFNAME` among its values is the
    /// new name.
    pub fn change(index: i32) -> Self
        ensures { result ≡ head_with 16 4 index }
    {
        Self::new(RTM_NEWLINK, NLM_F_ACK, index)
    }

    /// Returns the head of a request that removes a link: RTM_DELLINK with NLM_F_ACK.
    pub fn delete(index: i32) -> Self
        ensures { result ≡ head_with 17 4 index }
    {
        Self::new(RTM_DELLINK, NLM_F_ACK, index)
    }

    /// Returns the head of a query for one link: RTM_GETLINK. If the index is 0, an `IFLA_IFNAME` among the values names the
    /// link.
    pub fn get(index: i32) -> Self
        ensures { result ≡ head_with 18 0 index }
    {
        Self::new(RTM_GETLINK, 0, index)
    }

    /// Returns the head of a query for every link: RTM_GETLINK with NLM_F_DUMP.
    pub fn dump() -> Self
        ensures { result ≡ head_with 18 0x300 (pos 0) }
    {
        Self::new(RTM_GETLINK, NLM_F_DUMP, 0)
    }

    /// Returns the head of a request that changes VLANs or port options of a bridge or a bridge port: RTM_SETLINK with
    /// NLM_F_ACK, in AF_BRIDGE.
    pub fn bridge(index: i32) -> Self
        ensures { result ≡ bridge_with 19 4 index }
    {
        Head {
            address_family: AF_BRIDGE,
            ..Self::new(RTM_SETLINK, NLM_F_ACK, index)
        }
    }

    /// Returns the head of a request that takes VLANs from a bridge or a bridge port: RTM_DELLINK with NLM_F_ACK, in AF_BRIDGE.
    /// The link stays.
    pub fn bridge_delete(index: i32) -> Self
        ensures { result ≡ bridge_with 17 4 index }
    {
        Head {
            address_family: AF_BRIDGE,
            ..Self::new(RTM_DELLINK, NLM_F_ACK, index)
        }
    }

    /// Returns the head of a request that adds properties to a link, such as alternative names: RTM_NEWLINKPROP with
    /// NLM_F_CREATE, NLM_F_EXCL, NLM_F_APPEND and NLM_F_ACK, as iproute2 sends it.
    pub fn property(index: i32) -> Self
        ensures { result ≡ head_with 108 0xE04 index }
    {
        let flags = NLM_F_ACK | NLM_F_CREATE | NLM_F_EXCL | NLM_F_APPEND;
        Self::new(RTM_NEWLINKPROP, flags, index)
    }

    /// Returns the head of a request that removes properties of a link: RTM_DELLINKPROP with NLM_F_ACK.
    pub fn property_delete(index: i32) -> Self
        ensures { result ≡ head_with 109 4 index }
    {
        Self::new(RTM_DELLINKPROP, NLM_F_ACK, index)
    }
}

/// Returns why a head is not written, if it is not.
pub(crate) fn head_error(head: &Head) -> Option<RequestError>
    ensures { result ≡ head_error head.now }
{
    if !is_request(head.kind) {
        return Some(RequestError::BadType);
    }
    if needs_index(head) && head.index <= 0 {
        return Some(RequestError::NoIndex);
    }
    None
}

/// Checks whether messages of this type are requests about links.
fn is_request(kind: u16) -> bool
    ensures { result ≡ is_request kind }
{
    matches!(
        kind,
        RTM_NEWLINK | RTM_DELLINK | RTM_GETLINK | RTM_SETLINK | RTM_NEWLINKPROP | RTM_DELLINKPROP
    )
}

/// Checks whether a request changes or deletes a link.
fn needs_index(head: &Head) -> bool
    ensures { result ≡ needs_index head.now }
{
    let creates = head.flags & NLM_F_CREATE != 0;
    match head.kind {
        RTM_GETLINK => false,
        RTM_NEWLINK => !creates,
        _ => true,
    }
}
