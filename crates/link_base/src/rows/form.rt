//! Forms of values: what the bytes of a payload mean.

ghost use Rattle.std.specs.Prelude.{◌≡◌, ◌<◌, ◌≤◌, ◌-◌};
ghost use Rattle.link_base.specs.Number.{bound};
ghost use Rattle.link_base.specs.Forms.{bytes_in, width_in, size_in, extent_of, layout_extent};

use crate::classes::lengths::Lengths;

/// The width of a number.
#[derive(Clone, Copy, Debug, PartialEq, Eq)]
pub enum Width {
    /// One byte.
    One,
    /// Two bytes.
    Two,
    /// Four bytes.
    Four,
    /// Eight bytes.
    Eight,
}

impl Width {
    /// Returns the number of bytes.
    #[inline]
    pub const fn size(self) -> usize
        ensures value { result ≡ bytes_in self }
        ensures some { 0 < result }
        ensures few { result ≤ 8 }
    {
        match self {
            Width::One => 1,
            Width::Two => 2,
            Width::Four => 4,
            Width::Eight => 8,
        }
    }

    /// Returns the greatest unsigned number of this width.
    #[inline]
    pub const fn most(self) -> u64
        ensures { result ≡ bound (bytes_in self) - 1 }
    {
        match self {
            Width::One => 0xFF,
            Width::Two => 0xFFFF,
            Width::Four => 0xFFFF_FFFF,
            Width::Eight => 0xFFFF_FFFF_FFFF_FFFF,
        }
    }
}

/// The numbers of an array.
#[derive(Clone, Copy, Debug, PartialEq, Eq)]
pub enum ArrayOf {
    /// Unsigned numbers of two bytes.
    U16,
    /// Unsigned numbers of four bytes.
    U32,
    /// Unsigned numbers of eight bytes.
    U64,
    /// Signed numbers of four bytes, in two's complement.
    I32,
}

impl ArrayOf {
    /// Returns the width of a number.
    #[inline]
    pub const fn width(self) -> Width
        ensures { result ≡ width_in self }
    {
        match self {
            ArrayOf::U16 => Width::Two,
            ArrayOf::U32 | ArrayOf::I32 => Width::Four,
            ArrayOf::U64 => Width::Eight,
        }
    }

    /// Returns the number of bytes of a number.
    #[inline]
    pub const fn size(self) -> usize
        ensures value { result ≡ size_in self }
        ensures some { 0 < result }
        ensures few { result ≤ 8 }
    {
        self.width().size()
    }
}

/// The order of the bytes of a number in a payload.
#[derive(Clone, Copy, Debug, PartialEq, Eq)]
pub enum Order {
    /// The lowest byte first. The kernel sends numbers in the order of its machine, which has to be this one.
    Little,
    /// The highest byte first: network byte order (`__be16`, `__be32`, `__be64`).
    Big,
}

/// What an unsigned number stands for.
#[derive(Clone, Copy, Debug, PartialEq, Eq)]
pub enum Role {
    /// Itself.
    Plain,
    /// A constant of an enum of the kernel's headers, for which Rust has no enum. It may have no name.
    Coded,
    /// A variant of an enum. It may have no name.
    Enum,
    /// A set of flags: each bit is one.
    Flags,
}

/// What bytes are shown as.
#[derive(Clone, Copy, Debug, PartialEq, Eq)]
pub enum Look {
    /// An address: bytes in hexadecimal.
    Address,
    /// A text, without the NUL at its end, if there is one. It may not be UTF-8.
    Text,
    /// A list of attributes of another set, which is read by itself. It may be malformed.
    Held,
    /// A header of 16 bytes (`struct ifinfomsg`), then a list of attributes of a link, which may be malformed.
    Peer,
}

/// A fixed-layout struct of the kernel's headers: which it is, if it has a form of its own in C.
#[derive(Clone, Copy, Debug, PartialEq, Eq)]
pub enum Layout {
    /// A bridge ID: the priority and the address (`struct ifla_bridge_id`, `include/uapi/linux/if_link.h`).
    BridgeId,
    /// A VLAN of a bridge: the flags and the VLAN ID (`struct bridge_vlan_info`, `include/uapi/linux/if_bridge.h`).
    VlanInfo,
    /// Boolean options of a bridge (`struct br_boolopt_multi`, `include/uapi/linux/if_bridge.h`).
    BooleanOptions,
    /// A bit timing (`struct can_bittiming`, `include/uapi/linux/can/netlink.h`).
    BitTiming,
    /// A clock (`struct can_clock`, `include/uapi/linux/can/netlink.h`).
    Clock,
    /// Modes of a CAN controller (`struct can_ctrlmode`, `include/uapi/linux/can/netlink.h`).
    CtrlMode,
    /// Error counters (`struct can_berr_counter`, `include/uapi/linux/can/netlink.h`).
    BerrCounter,
    /// Any other struct. In C it is bytes.
    Other(Lengths),
}

impl Layout {
    /// Returns the lengths of payloads that are accepted.
    #[inline(always)]
    pub const fn lengths(self) -> Lengths
        ensures { extent_of result ≡ layout_extent self }
    {
        match self {
            Layout::BridgeId => Lengths::AtLeast(8),
            Layout::VlanInfo => Lengths::Exactly(4),
            Layout::BooleanOptions => Lengths::Fixed(8),
            Layout::BitTiming => Lengths::AtLeast(32),
            Layout::Clock => Lengths::Fixed(4),
            Layout::CtrlMode => Lengths::AtLeast(8),
            Layout::BerrCounter => Lengths::AtLeast(4),
            Layout::Other(lengths) => lengths,
        }
    }
}

/// The form of an attribute's content: the variant of `Content` that a view returns for it, with the width, the struct,
/// the size or the flag that tell how the bytes of the payload are read and written.
#[derive(Clone, Copy, Debug, PartialEq, Eq)]
pub enum Form {
    /// No value: the payload is ignored.
    Nothing,
    /// A boolean.
    Bool,
    /// A flag, which is set by being there: no byte, or a boolean.
    FlagOrBool,
    /// An unsigned number, an enum or a set of flags.
    Number {
        width: Width,
        order: Order,
        role: Role,
    },
    /// A signed number.
    Signed,
    /// A set of flags of one byte, in two bytes.
    LowFlags,
    /// A set of flags, and a mask.
    MaskedFlags,
    /// Two consecutive `u32`s.
    Pair,
    /// A VLAN protocol.
    Protocol,
    /// A hardware address.
    Mac,
    /// An IPv4 address.
    Ipv4,
    /// An IPv6 address.
    Ipv6,
    /// Bytes.
    Bytes(Look),
    /// A fixed-layout struct.
    Struct(Layout),
    /// An array of little-endian numbers. If there are names, they are those of its places, which count from 0.
    Numbers(ArrayOf),
    /// The limits of a CAN controller.
    Limits,
    /// A list of addresses of `size` bytes each.
    Addresses {
        size: usize,
    },
    /// A nested list, and whether it is written with the nested flag.
    List {
        flagged: bool,
    },
}

impl Form {
    ghost use Rattle.std.specs.Prelude.{ℕ, List, true, false};
    ghost use Rattle.link_base.specs.Class.{AtLeast, extent};
    ghost use Rattle.link_base.specs.Payloads.{class_by, is_fixed};
    ghost use Rattle.link_base.specs.Structs.{form_width};

    /// Returns the lengths of the payloads that are accepted, of a form that is written with one size; any lengths of another.
    #[inline(always)]
    pub const fn lengths(self) -> Lengths
        ensures fixed { (names : List (ℕ × List ℕ)) → is_fixed self ≡ true → extent_of result ≡ extent (class_by self names) }
        ensures other { is_fixed self ≡ false → extent_of result ≡ AtLeast 0 }
    {
        match self {
            Form::Bool => Lengths::Exactly(1),
            Form::Number { width, .. } => Lengths::Exactly(width.size()),
            Form::LowFlags | Form::Protocol => Lengths::Exactly(2),
            Form::Signed | Form::Ipv4 => Lengths::Exactly(4),
            Form::Mac => Lengths::Exactly(6),
            Form::MaskedFlags | Form::Pair => Lengths::Exactly(8),
            Form::Ipv6 => Lengths::Exactly(16),
            Form::Struct(layout) => layout.lengths(),
            _ => Lengths::AtLeast(0),
        }
    }

    /// Returns how many bytes are written; 0 if the form has several sizes.
    #[inline(always)]
    pub fn width(self) -> usize
        ensures { result ≡ form_width self }
    {
        self.lengths().kept()
    }
}
