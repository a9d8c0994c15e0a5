//! The flags of a VLAN device.

use bitflags::{Flag, Flags};
use link_base::names::flag_laws::{FlagSet, KnownBits};
use link_base::rows::label::Name;

/// Flags of a VLAN device (`VLAN_FLAG_*`, `include/uapi/linux/if_vlan.h`). Unnamed bits are kept.
#[derive(Clone, Copy, Debug, PartialEq, Eq, Hash)]
pub struct VlanFlags(u32);

impl VlanFlags {
    /// Headers of received frames are reordered so that they look like those of a device without VLANs
    /// (`VLAN_FLAG_REORDER_HDR`).
    pub const ReorderHdr: VlanFlags = VlanFlags(0x1);

    /// The device registers its VLAN with switches by GVRP (`VLAN_FLAG_GVRP`).
    pub const Gvrp: VlanFlags = VlanFlags(0x2);

    /// The link state does not follow that of the underlying device (`VLAN_FLAG_LOOSE_BINDING`).
    pub const LooseBinding: VlanFlags = VlanFlags(0x4);

    /// The device registers its VLAN with switches by MVRP (`VLAN_FLAG_MVRP`).
    pub const Mvrp: VlanFlags = VlanFlags(0x8);

    /// The link state follows that of the bridge ports in the VLAN (`VLAN_FLAG_BRIDGE_BINDING`).
    pub const BridgeBinding: VlanFlags = VlanFlags(0x10);
}

/// The flags (`include/uapi/linux/if_vlan.h`), the set's constants for them, and their names without `VLAN_FLAG_`.
macro_rules! flags {
    ($call:ident($($argument:tt)*)) => {
        link_base::by_flags! { $call($($argument)*)
            VLAN_FLAG_REORDER_HDR = 0x1, ReorderHdr, "REORDER_HDR";
            VLAN_FLAG_GVRP = 0x2, Gvrp, "GVRP";
            VLAN_FLAG_LOOSE_BINDING = 0x4, LooseBinding, "LOOSE_BINDING";
            VLAN_FLAG_MVRP = 0x8, Mvrp, "MVRP";
            VLAN_FLAG_BRIDGE_BINDING = 0x10, BridgeBinding, "BRIDGE_BINDING";
        }
    };
}

/// The named flags, and an unnamed one with all bits, so that every bit is known.
const FLAGS: [Flag<VlanFlags>; 6] = flags!(flags(VlanFlags, u32::MAX));

impl Flags for VlanFlags {
    type Bits = u32;

    ghost use Rattle.std.specs.Prelude.{⊤};
    ghost use Rattle.link_vlan_can.specs.VlanFlags.{vlan_bits, vlan_flags};

    ghost exact = { ⊤ };

    ghost table = { vlan_flags };

    ghost set_of = { vlan_bits };

    fn flags<'a>() -> &'a [Flag<VlanFlags>] {
        &FLAGS
    }

    fn bits(&self) -> u32 {
        self.0
    }

    fn from_bits_retain(bits: u32) -> VlanFlags {
        VlanFlags(bits)
    }
}

impl FlagSet for VlanFlags {
    ghost use Rattle.std.specs.Prelude.{refl};
    ghost use Rattle.link_base.specs.Equality.{wrapped, numbers};
    ghost use Rattle.link_vlan_can.specs.VlanFlags.{vlan_bit_names};

    ghost bit_names = { vlan_bit_names };

    fn names() -> &'static [Name] {
        flags!(names())
    }

    ghost is_exact = { tt };

    ghost equal_by_bits = { λ a b. refl };

    ghost thorough = { wrapped (λ flags. flags.0) (λ bits. record { 0 = bits }) (λ _. refl) numbers };

    ghost copies = { λ _ _ same. same };

    ghost is_copied = { λ _. tt };
}

impl KnownBits for VlanFlags {
    ghost use Rattle.link_vlan_can.specs.VlanFlags.{every_vlan_bit};

    ghost every_bit = { every_vlan_bit };
}
