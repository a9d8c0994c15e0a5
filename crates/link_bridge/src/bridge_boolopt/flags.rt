//! Boolean options of a bridge, as flags.

use bitflags::{Flag, Flags};
use link_base::names::flag_laws::{FlagSet, KnownBits};
use link_base::rows::label::Name;

/// Boolean options of a bridge (`BR_BOOLOPT_*`, `include/uapi/linux/if_bridge.h`). Unnamed bits are kept.
#[derive(Clone, Copy, Debug, Default, PartialEq, Eq)]
pub struct BridgeBooleanOptionFlags(u32);

impl BridgeBooleanOptionFlags {
    /// Source addresses of link-local frames are not learned (`BR_BOOLOPT_NO_LL_LEARN`).
    pub const NoLinkLocalLearn: BridgeBooleanOptionFlags = BridgeBooleanOptionFlags(0x1);

    /// Multicast snooping is done for each VLAN separately (`BR_BOOLOPT_MCAST_VLAN_SNOOPING`).
    pub const VlanMulticastSnooping: BridgeBooleanOptionFlags = BridgeBooleanOptionFlags(0x2);

    /// Multiple spanning trees are on: each group of VLANs has its own (`BR_BOOLOPT_MST_ENABLE`).
    pub const MstEnable: BridgeBooleanOptionFlags = BridgeBooleanOptionFlags(0x4);

    /// The kernel reports multicast database entries that could not be offloaded to a device
    /// (`BR_BOOLOPT_MDB_OFFLOAD_FAIL_NOTIFICATION`).
    pub const MdbOffloadFailNotif: BridgeBooleanOptionFlags = BridgeBooleanOptionFlags(0x8);

    /// The forwarding database has the bridge's own addresses only under VLAN 0, and not under every VLAN
    /// (`BR_BOOLOPT_FDB_LOCAL_VLAN_0`).
    pub const FdbLocalVlan0: BridgeBooleanOptionFlags = BridgeBooleanOptionFlags(0x10);
}

/// The flags (`include/uapi/linux/if_bridge.h`), the set's constants for them, and their names without `BR_BOOLOPT_`.
macro_rules! flags {
    ($call:ident($($argument:tt)*)) => {
        link_base::by_flags! { $call($($argument)*)
            BR_BOOLOPT_NO_LL_LEARN = 0x1, NoLinkLocalLearn, "NO_LL_LEARN";
            BR_BOOLOPT_MCAST_VLAN_SNOOPING = 0x2, VlanMulticastSnooping, "MCAST_VLAN_SNOOPING";
            BR_BOOLOPT_MST_ENABLE = 0x4, MstEnable, "MST_ENABLE";
            BR_BOOLOPT_MDB_OFFLOAD_FAIL_NOTIFICATION = 0x8, MdbOffloadFailNotif, "MDB_OFFLOAD_FAIL_NOTIFICATION";
            BR_BOOLOPT_FDB_LOCAL_VLAN_0 = 0x10, FdbLocalVlan0, "FDB_LOCAL_VLAN_0";
        }
    };
}

/// The named flags, and an unnamed one with all bits, so that every bit is known.
const FLAGS: [Flag<BridgeBooleanOptionFlags>; 6] = flags!(flags(
    BridgeBooleanOptionFlags,
    u32::MAX
));

impl Flags for BridgeBooleanOptionFlags {
    type Bits = u32;

    ghost use Rattle.std.specs.Prelude.{⊤};
    ghost use Rattle.link_bridge.specs.BooleanOptions.{option_bits, option_flags};

    ghost exact = { ⊤ };

    ghost table = { option_flags };

    ghost set_of = { option_bits };

    fn flags<'a>() -> &'a [Flag<BridgeBooleanOptionFlags>] {
        &FLAGS
    }

    fn bits(&self) -> u32 {
        self.0
    }

    fn from_bits_retain(bits: u32) -> BridgeBooleanOptionFlags {
        BridgeBooleanOptionFlags(bits)
    }
}

impl FlagSet for BridgeBooleanOptionFlags {
    ghost use Rattle.std.specs.Prelude.{refl};
    ghost use Rattle.link_base.specs.Equality.{wrapped, numbers};
    ghost use Rattle.link_bridge.specs.BooleanOptions.{option_bit_names};

    ghost bit_names = { option_bit_names };

    fn names() -> &'static [Name] {
        flags!(names())
    }

    ghost is_exact = { tt };

    ghost equal_by_bits = { λ a b. refl };

    ghost thorough = { wrapped (λ flags. flags.0) (λ bits. record { 0 = bits }) (λ _. refl) numbers };

    ghost copies = { λ _ _ same. same };

    ghost is_copied = { λ _. tt };
}

impl KnownBits for BridgeBooleanOptionFlags {
    ghost use Rattle.link_bridge.specs.BooleanOptions.{every_option_bit};

    ghost every_bit = { every_option_bit };
}
