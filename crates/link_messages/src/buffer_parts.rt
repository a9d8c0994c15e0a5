//! Parts of a buffer, with their offsets in it: messages, and lists of attributes.

ghost use Rattle.std.specs.Prelude.{◌+◌, ◌<◌, ◌^◌, length};

use netlink_packet_route::Family;

/// A netlink message: the fields of its `struct nlmsghdr` (`include/uapi/linux/netlink.h`), its payload, and its
/// offset.
#[derive(Clone, Copy, Debug, PartialEq, Eq)]
pub struct Message<'a> {
    /// The offset of its first byte in the buffer.
    pub at: usize,
    /// `nlmsg_type`.
    pub kind: u16,
    /// `nlmsg_flags`.
    pub flags: u16,
    /// `nlmsg_seq`.
    pub sequence: u32,
    /// `nlmsg_pid`, the port ID of the sender.
    pub port: u32,
    /// What follows the header, without padding. It is borrowed from the buffer.
    pub payload: &'a [u8],
    /// The offset of the first byte after the message and its padding.
    pub next: usize,
    ghost within: { at + 16 + length payload.now < 2 ^ 64 },
}

/// Bytes of a buffer, and their offset in it.
#[derive(Clone, Copy, Debug, PartialEq, Eq)]
pub struct Payload<'a> {
    /// The offset of the first byte.
    pub at: usize,
    /// The bytes. They are borrowed from the buffer.
    pub bytes: &'a [u8],
    ghost within: { at + length bytes.now < 2 ^ 64 },
}

/// An attribute list, and the `Family` that parses it.
#[derive(Clone, Copy, Debug, PartialEq, Eq)]
pub struct Part<'a> {
    /// The set that reads the list.
    pub family: Family,
    /// The list.
    pub payload: Payload<'a>,
}
