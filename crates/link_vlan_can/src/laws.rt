//! Theorems about the bits of the named flags, and the two versions of the CAN controller table. The functions have
//! empty bodies.

ghost use Rattle.std.specs.Prelude.{◌≡◌};
ghost use Rattle.link_base.specs.Editions.{AreEditions};
ghost use Rattle.link_vlan_can.specs.Can.{can_added, can_table_first};
ghost use Rattle.link_vlan_can.specs.VlanFlags.{vlan_bits};
ghost use Rattle.link_vlan_can.specs.CanFlags.{mode_bits};

use crate::can::InfoCan;
use crate::can_flags::CanCtrlModeFlags;
use crate::vlan_flags::VlanFlags;
use link_base::Meaning;

/// Proves which bits the flags of a VLAN device have (`VLAN_FLAG_*`, `include/uapi/linux/if_vlan.h`).
pub fn vlan_flag_bits()
    ensures reorder_hdr { vlan_bits VlanFlags.ReorderHdr ≡ 0x1 }
    ensures gvrp { vlan_bits VlanFlags.Gvrp ≡ 0x2 }
    ensures loose_binding { vlan_bits VlanFlags.LooseBinding ≡ 0x4 }
    ensures mvrp { vlan_bits VlanFlags.Mvrp ≡ 0x8 }
    ensures bridge_binding { vlan_bits VlanFlags.BridgeBinding ≡ 0x10 }
{}

/// Proves which bits the modes of a CAN controller have (`CAN_CTRLMODE_*`, `include/uapi/linux/can/netlink.h`).
pub fn can_mode_bits()
    ensures loopback { mode_bits CanCtrlModeFlags.Loopback ≡ 0x1 }
    ensures listen_only { mode_bits CanCtrlModeFlags.ListenOnly ≡ 0x2 }
    ensures triple_sampling { mode_bits CanCtrlModeFlags.TripleSampling ≡ 0x4 }
    ensures one_shot { mode_bits CanCtrlModeFlags.OneShot ≡ 0x8 }
    ensures berr_reporting { mode_bits CanCtrlModeFlags.BerrReporting ≡ 0x10 }
    ensures fd { mode_bits CanCtrlModeFlags.Fd ≡ 0x20 }
    ensures presume_ack { mode_bits CanCtrlModeFlags.PresumeAck ≡ 0x40 }
    ensures fd_non_iso { mode_bits CanCtrlModeFlags.FdNonIso ≡ 0x80 }
    ensures cc_len8_dlc { mode_bits CanCtrlModeFlags.CcLen8Dlc ≡ 0x100 }
    ensures tdc_auto { mode_bits CanCtrlModeFlags.TdcAuto ≡ 0x200 }
    ensures tdc_manual { mode_bits CanCtrlModeFlags.TdcManual ≡ 0x400 }
    ensures restricted { mode_bits CanCtrlModeFlags.Restricted ≡ 0x800 }
    ensures xl { mode_bits CanCtrlModeFlags.Xl ≡ 0x1000 }
    ensures xl_tdc_auto { mode_bits CanCtrlModeFlags.XlTdcAuto ≡ 0x2000 }
    ensures xl_tdc_manual { mode_bits CanCtrlModeFlags.XlTdcManual ≡ 0x4000 }
    ensures xl_tms { mode_bits CanCtrlModeFlags.XlTms ≡ 0x8000 }
{}

/// Proves how the two versions of the CAN controller table are related. The second adds attribute types 12, 13 and 14:
/// `IFLA_CAN_TERMINATION_CONST`, `IFLA_CAN_BITRATE_CONST` and `IFLA_CAN_DATA_BITRATE_CONST`. If the input has no
/// attribute of these types before its first framing error, if any, then both versions give the same values or the same
/// first error, and the input is canonical in both or in neither.
pub fn profiles()
    ensures { AreEditions can_added can_table_first ⟦<InfoCan as Meaning>⟧.table }
{}
