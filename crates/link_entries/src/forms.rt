//! The forms of entries: `enum nlroute_form` of the C API.

/// No value: the attribute is there.
pub const EMPTY: u8 = 1;

/// A boolean: `number` is 0 or 1.
pub const BOOL: u8 = 2;

/// An unsigned number: `number`.
pub const UNSIGNED: u8 = 3;

/// A signed number: `number`, in two's complement.
pub const SIGNED: u8 = 4;

/// The number of an enum: `number`.
pub const NAMED: u8 = 5;

/// A set of flags: `number`.
pub const FLAGS: u8 = 6;

/// A set of flags, `number`, and the mask `second`.
pub const MASKED: u8 = 7;

/// A hardware address: six `octets`.
pub const MAC: u8 = 8;

/// An IPv4 address: four `octets`.
pub const IPV4: u8 = 9;

/// An IPv6 address: sixteen `octets`.
pub const IPV6: u8 = 10;

/// A bridge ID: the priority `number`, and the address in six `octets`.
pub const BRIDGE_ID: u8 = 11;

/// A bridge VLAN (`struct bridge_vlan_info`): the ID `number`, and the flags `second`.
pub const VLAN_INFO: u8 = 12;

/// A priority mapping (`struct ifla_vlan_qos_mapping`): from `number` to `second`.
pub const QOS_MAPPING: u8 = 13;

/// Error counters (`struct can_berr_counter`): `txerr` is `number`, `rxerr` is `second`.
pub const BERR_COUNTER: u8 = 14;

/// A bit timing (`struct can_bittiming`), at `offset`.
pub const BITTIMING: u8 = 15;

/// The limits of a bit timing (`struct can_bittiming_const`), at `offset`.
pub const BITTIMING_CONST: u8 = 16;

/// Bytes, at `offset`.
pub const BYTES: u8 = 17;

/// A list: `number` elements follow.
pub const LIST: u8 = 18;

/// The payload of an attribute whose type has no row, at `offset`.
pub const UNKNOWN: u8 = 19;

/// A text, at `offset`; a NUL at its end is part of it.
pub const TEXT: u8 = 20;

/// A list of attributes of another set, at `offset`.
pub const HELD: u8 = 21;

/// A header of 16 bytes (`struct ifinfomsg`), then a list of attributes of a link, at `offset`.
pub const PEER: u8 = 22;
