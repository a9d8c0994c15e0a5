//! Theorems about the bits of the named flags, constants, inverse conversions, `==`, and the two versions of the bridge
//! port table. The functions have empty bodies.

ghost use Rattle.std.specs.Prelude.{◌≡◌, ◌<◌, ◌^◌, ◌↔◌, ℕ, List, map, IsTrue};
ghost use Rattle.link_base.specs.Held.{IsOctets};
ghost use Rattle.link_base.specs.Editions.{AreEditions};
ghost use Rattle.link_bridge.specs.BooleanOptions.{option_bits};
ghost use Rattle.link_bridge.specs.BridgePort.{bridge_port_added, bridge_port_table_first};
ghost use Rattle.link_bridge.specs.Id.{buffer_of, id_of_buffer, priority_octets};
ghost use Rattle.link_bridge.specs.VlanInfo.{vlan_info_bits, vlan_info_of, vlan_info_octets};
ghost use Rattle.link_bridge.specs.AfSpecBridge.{af_spec_bridge_means};
ghost use Rattle.link_bridge.specs.ProtoInfo.{proto_info_means};
ghost use Rattle.link_bridge.specs.declared.af_spec.VecAfSpecBridge.{VecAfSpecBridge};
ghost use Rattle.link_bridge.specs.declared.af_spec.vlan_info.BridgeVlanInfo.{BridgeVlanInfo};
ghost use Rattle.link_bridge.specs.declared.proto_info.VecLinkProtoInfoBridge.{VecLinkProtoInfoBridge};
ghost use Rattle.link_bridge.specs.declared.bridge.id.BridgeId.{BridgeId};
ghost use Rattle.link_bridge.specs.declared.bridge.id.BridgeIdBuffer.{BridgeIdBuffer};
ghost use Rattle.link_bridge.specs.declared.bridge.router_type.BridgeMulticastRouterType.TheVariants.{TempQuery};
ghost use Rattle.link_bridge.specs.declared.bridge_boolopt.BridgeBooleanOptions.{BridgeBooleanOptions};
ghost use Rattle.link_bridge.specs.declared.bridge_boolopt.flags.BridgeBooleanOptionFlags.{BridgeBooleanOptionFlags};

use crate::af_spec::{
    BridgeFlag, BridgeMode, BridgeVlanInfo, BridgeVlanInfoFlags, VecAfSpecBridge,
};
use crate::bridge::{BridgeIdBuffer, BridgeMulticastRouterType};
use crate::bridge_boolopt::{BridgeBooleanOptionFlags, BridgeBooleanOptions};
use crate::bridge_port::InfoBridgePort;
use crate::proto_info::VecLinkProtoInfoBridge;
use link_base::Meaning;

/// Proves which bits the boolean options of a bridge have (`BR_BOOLOPT_*`, `include/uapi/linux/if_bridge.h`).
pub fn boolean_option_bits()
    ensures no_link_local_learn { option_bits BridgeBooleanOptionFlags.NoLinkLocalLearn ≡ 0x1 }
    ensures vlan_multicast_snooping { option_bits BridgeBooleanOptionFlags.VlanMulticastSnooping ≡ 0x2 }
    ensures mst_enable { option_bits BridgeBooleanOptionFlags.MstEnable ≡ 0x4 }
    ensures mdb_offload_fail_notif { option_bits BridgeBooleanOptionFlags.MdbOffloadFailNotif ≡ 0x8 }
    ensures fdb_local_vlan_0 { option_bits BridgeBooleanOptionFlags.FdbLocalVlan0 ≡ 0x10 }
{}

/// Proves which bits the flags of a bridge VLAN have (`BRIDGE_VLAN_INFO_*`, `include/uapi/linux/if_bridge.h`).
pub fn vlan_info_flag_bits()
    ensures controller { vlan_info_bits BridgeVlanInfoFlags.Controller ≡ 0x1 }
    ensures pvid { vlan_info_bits BridgeVlanInfoFlags.Pvid ≡ 0x2 }
    ensures untagged { vlan_info_bits BridgeVlanInfoFlags.Untagged ≡ 0x4 }
    ensures range_begin { vlan_info_bits BridgeVlanInfoFlags.RangeBegin ≡ 0x8 }
    ensures range_end { vlan_info_bits BridgeVlanInfoFlags.RangeEnd ≡ 0x10 }
    ensures brentry { vlan_info_bits BridgeVlanInfoFlags.Brentry ≡ 0x20 }
    ensures only_opts { vlan_info_bits BridgeVlanInfoFlags.OnlyOpts ≡ 0x40 }
{}

/// Proves that a set of boolean options is the default one if and only if it has no bits.
pub fn default_options()
    ensures { (options : BridgeBooleanOptionFlags)
        → ⟦<BridgeBooleanOptionFlags as Default>⟧.is_default options ↔ (option_bits options ≡ 0) }
{}

/// Proves that `Auto` is `TempQuery`.
pub fn auto_router()
    ensures { BridgeMulticastRouterType.Auto ≡ TempQuery }
{}

/// Proves the payload lengths of these types, in bytes.
pub fn payload_lengths()
    ensures flag { BridgeFlag.LENGTH ≡ 2 }
    ensures mode { BridgeMode.LENGTH ≡ 2 }
    ensures vlan_info_flags { BridgeVlanInfoFlags.LENGTH ≡ 2 }
    ensures vlan_info { BridgeVlanInfo.LENGTH ≡ 4 }
{}

/// Proves that the two conversions of a bridge ID are inverse: for every ID whose priority is a `u16`, and for every
/// buffer whose priority has two bytes.
pub fn bridge_id_back()
    ensures id { (id : BridgeId) → id.priority < 2 ^ 16 → id_of_buffer (buffer_of id) ≡ id }
    ensures buffer { (buffer : BridgeIdBuffer) → IsOctets 2 (priority_octets buffer)
        → buffer_of (id_of_buffer buffer) ≡ buffer }
{}

/// Proves that the two conversions of a VLAN are inverse: for every VLAN whose flags and ID are `u16`s, and for any
/// four bytes.
pub fn vlan_info_back()
    ensures info { (info : BridgeVlanInfo) → vlan_info_bits info.flags < 2 ^ 16 → info.vid < 2 ^ 16
        → vlan_info_of (vlan_info_octets info) ≡ info }
    ensures bytes { (bytes : List ℕ) → IsOctets 4 bytes → vlan_info_octets (vlan_info_of bytes) ≡ bytes }
{}

/// Proves that two values of `BridgeBooleanOptions`, `BridgeVlanInfo` or `BridgeIdBuffer` compare equal if and only if
/// they are the same.
pub fn equality_of_values()
    ensures options { (a b : BridgeBooleanOptions) → IsTrue (⟦<BridgeBooleanOptions as PartialEq>⟧.eq a b) ↔ (a ≡ b) }
    ensures vlan { (a b : BridgeVlanInfo) → IsTrue (⟦<BridgeVlanInfo as PartialEq>⟧.eq a b) ↔ (a ≡ b) }
    ensures id_buffer { (a b : BridgeIdBuffer) → IsTrue (⟦<BridgeIdBuffer as PartialEq>⟧.eq a b) ↔ (a ≡ b) }
{}

/// Proves that lists that compare equal represent the same attributes, in the same order.
pub fn equality_of_lists()
    ensures af_spec { (a b : VecAfSpecBridge) → IsTrue (⟦<VecAfSpecBridge as PartialEq>⟧.eq a b)
        → map af_spec_bridge_means a.0.items ≡ map af_spec_bridge_means b.0.items }
    ensures proto_info { (a b : VecLinkProtoInfoBridge) → IsTrue (⟦<VecLinkProtoInfoBridge as PartialEq>⟧.eq a b)
        → map proto_info_means a.0.items ≡ map proto_info_means b.0.items }
{}

/// Proves how the two versions of the bridge port table are related. The second adds attribute type 11,
/// `IFLA_BRPORT_LEARNING_SYNC`. If the input has no attribute of this type before its first framing error, if any, then
/// both versions give the same values or the same first error, and the input is canonical in both or in neither.
pub fn profiles()
    ensures { AreEditions bridge_port_added bridge_port_table_first ⟦<InfoBridgePort as Meaning>⟧.table }
{}
