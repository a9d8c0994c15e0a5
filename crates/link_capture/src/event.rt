//! What units mean.

/// What a unit means.
#[derive(Clone, Copy, Debug, PartialEq, Eq)]
pub enum Event<'a> {
    /// Nothing that is shown: a header, or a block that describes the file.
    Nothing,
    /// A packet.
    Packet(Packet<'a>),
    /// A message: `nlmsg_len` bytes.
    Message(&'a [u8]),
    /// The time at which the next message was received (`rtmon`).
    Time(Time),
}

/// A captured packet.
#[derive(Clone, Copy, Debug, PartialEq, Eq)]
pub struct Packet<'a> {
    /// When it was captured.
    pub time: Time,
    /// The length that it had, in bytes. More than those of `bytes`, if it was truncated.
    pub original: u32,
    /// The link type (`LINKTYPE_`) of its interface: 253 for netlink.
    pub link_type: u16,
    /// Its captured bytes, which begin with the header of its link type.
    pub bytes: &'a [u8],
}

/// An instant.
#[derive(Clone, Copy, Debug, PartialEq, Eq)]
pub struct Time {
    /// Nanoseconds since 1970-01-01 00:00 UTC.
    pub nanosecond: i128,
    /// How many digits of its second the file keeps: 0 to 9.
    pub digits: u8,
}
