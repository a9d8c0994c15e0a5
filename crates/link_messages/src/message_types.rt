//! Types of messages (`nlmsg_type`, `include/uapi/linux/netlink.h`, `rtnetlink.h`).

/// A message that receivers ignore.
pub const NLMSG_NOOP: u16 = 1;

/// The kernel's reply to a request.
pub const NLMSG_ERROR: u16 = 2;

/// The end of a dump, with its result.
pub const NLMSG_DONE: u16 = 3;

/// Data was lost.
pub const NLMSG_OVERRUN: u16 = 4;

/// A link that was made or changed, or a request to make one.
pub const RTM_NEWLINK: u16 = 16;

/// A link that was deleted, or a request to delete one.
pub const RTM_DELLINK: u16 = 17;

/// A request for links.
pub const RTM_GETLINK: u16 = 18;

/// A request to change a link.
pub const RTM_SETLINK: u16 = 19;

/// A request to add properties to a link, such as alternative names.
pub const RTM_NEWLINKPROP: u16 = 108;

/// A request to remove properties of a link.
pub const RTM_DELLINKPROP: u16 = 109;

/// A query for properties of a link.
pub const RTM_GETLINKPROP: u16 = 110;
