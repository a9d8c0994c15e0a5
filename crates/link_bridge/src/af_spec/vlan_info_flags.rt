//! The flags of a bridge VLAN.

use bitflags::{Flag, Flags};
use link_base::names::flag_laws::{FlagSet, KnownBits};
use link_base::rows::label::Name;

/// Flags of a VLAN of a bridge or bridge port (`BRIDGE_VLAN_INFO_*`, `include/uapi/linux/if_bridge.h`). Unnamed bits
/// are kept.
#[derive(Clone, Copy, Debug, PartialEq, Eq, Hash)]
pub struct BridgeVlanInfoFlags(u16);

impl BridgeVlanInfoFlags {
    /// The VLAN is also set on the bridge, and not only on the port (`BRIDGE_VLAN_INFO_MASTER`).
    pub const Controller: BridgeVlanInfoFlags = BridgeVlanInfoFlags(0x1);

    /// Received frames without a tag belong to the VLAN (`BRIDGE_VLAN_INFO_PVID`).
    pub const Pvid: BridgeVlanInfoFlags = BridgeVlanInfoFlags(0x2);

    /// Frames of the VLAN are sent without a tag (`BRIDGE_VLAN_INFO_UNTAGGED`).
    pub const Untagged: BridgeVlanInfoFlags = BridgeVlanInfoFlags(0x4);

    /// The VLAN is the first of a range (`BRIDGE_VLAN_INFO_RANGE_BEGIN`).
    pub const RangeBegin: BridgeVlanInfoFlags = BridgeVlanInfoFlags(0x8);

    /// The VLAN is the last of a range (`BRIDGE_VLAN_INFO_RANGE_END`).
    pub const RangeEnd: BridgeVlanInfoFlags = BridgeVlanInfoFlags(0x10);

    /// The VLAN is used by the bridge itself, and not only by its ports (`BRIDGE_VLAN_INFO_BRENTRY`).
    pub const Brentry: BridgeVlanInfoFlags = BridgeVlanInfoFlags(0x20);

    /// Only options of the VLAN are set: the VLAN is neither added nor deleted, and its flags are unchanged
    /// (`BRIDGE_VLAN_INFO_ONLY_OPTS`).
    pub const OnlyOpts: BridgeVlanInfoFlags = BridgeVlanInfoFlags(0x40);

    /// Length of the flags as a payload, in bytes.
    pub const LENGTH: usize = 2;
}

/// The flags (`include/uapi/linux/if_bridge.h`), the set's constants for them, and their names without `BRIDGE_VLAN_INFO_`.
macro_rules! flags {
    ($call:ident($($argument:tt)*)) => {
        link_base::by_flags! { $call($($argument)*)
            BRIDGE_VLAN_INFO_MASTER = 0x1, Controller, "MASTER";
            BRIDGE_VLAN_INFO_PVID = 0x2, Pvid, "PVID";
            BRIDGE_VLAN_INFO_UNTAGGED = 0x4, Untagged, "UNTAGGED";
            BRIDGE_VLAN_INFO_RANGE_BEGIN = 0x8, RangeBegin, "RANGE_BEGIN";
            BRIDGE_VLAN_INFO_RANGE_END = 0x10, RangeEnd, "RANGE_END";
            BRIDGE_VLAN_INFO_BRENTRY = 0x20, Brentry, "BRENTRY";
            BRIDGE_VLAN_INFO_ONLY_OPTS = 0x40, OnlyOpts, "ONLY_OPTS";
        }
    };
}

/// The named flags, and an unnamed one with all bits, so that every bit is known.
const FLAGS: [Flag<BridgeVlanInfoFlags>; 8] = flags!(flags(BridgeVlanInfoFlags, u16::MAX));

impl Flags for BridgeVlanInfoFlags {
    type Bits = u16;

    ghost use Rattle.std.specs.Prelude.{⊤};
    ghost use Rattle.link_bridge.specs.VlanInfo.{vlan_info_bits, vlan_info_flags};

    ghost exact = { ⊤ };

    ghost table = { vlan_info_flags };

    ghost set_of = { vlan_info_bits };

    fn flags<'a>() -> &'a [Flag<BridgeVlanInfoFlags>] {
        &FLAGS
    }

    fn bits(&self) -> u16 {
        self.0
    }

    fn from_bits_retain(bits: u16) -> BridgeVlanInfoFlags {
        BridgeVlanInfoFlags(bits)
    }
}

impl FlagSet for BridgeVlanInfoFlags {
    ghost use Rattle.std.specs.Prelude.{refl};
    ghost use Rattle.link_base.specs.Equality.{wrapped, numbers};
    ghost use Rattle.link_bridge.specs.VlanInfo.{vlan_info_bit_names};

    ghost bit_names = { vlan_info_bit_names };

    fn names() -> &'static [Name] {
        flags!(names())
    }

    ghost is_exact = { tt };

    ghost equal_by_bits = { λ a b. refl };

    ghost thorough = { wrapped (λ flags. flags.0) (λ bits. record { 0 = bits }) (λ _. refl) numbers };

    ghost copies = { λ _ _ same. same };

    ghost is_copied = { λ _. tt };
}

impl KnownBits for BridgeVlanInfoFlags {
    ghost use Rattle.link_bridge.specs.VlanInfo.{every_vlan_info_bit};

    ghost every_bit = { every_vlan_info_bit };
}
