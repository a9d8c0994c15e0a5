//! Types of attributes in messages about links (`include/uapi/linux/if_link.h`).

/// The address family of bridges and bridge ports (`include/linux/socket.h`).
pub const AF_BRIDGE: u8 = 7;

/// The hardware address.
pub const IFLA_ADDRESS: u16 = 1;

/// The name.
pub const IFLA_IFNAME: u16 = 3;

/// The longest packet, in bytes.
pub const IFLA_MTU: u16 = 4;

/// The index of the link below.
pub const IFLA_LINK: u16 = 5;

/// The index of the bond or bridge whose port this is.
pub const IFLA_MASTER: u16 = 10;

/// What a bridge says of a port, in AF_BRIDGE messages.
pub const IFLA_PROTINFO: u16 = 12;

/// The operational state.
pub const IFLA_OPERSTATE: u16 = 16;

/// What is particular to the kind of the link.
pub const IFLA_LINKINFO: u16 = 18;

/// The VLANs of a bridge or a bridge port, in AF_BRIDGE messages.
pub const IFLA_AF_SPEC: u16 = 26;
