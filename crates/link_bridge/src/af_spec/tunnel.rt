//! A VLAN that is mapped to a tunnel.

ghost use Rattle.std.specs.Prelude.{refl, false};
ghost use Rattle.link_base.specs.Lift.{lift, lift_table};
ghost use Rattle.link_bridge.specs.TunnelInfo.{tunnel_rows, tunnel_leaf};

use crate::af_spec::vlan_info_flags::BridgeVlanInfoFlags;
use link_base::rows::by_rows::{AttributeRows, RowVisitor};
use link_base::{
    Attribute, DecodeError, DefaultNla, FlagBits, Meaning, NestedAttribute, Nla, NlaBuffer,
    Parseable, Place, TryClone,
};
use std::alloc::{AllocError, Global};

/// An attribute of a VLAN that is mapped to a tunnel on a bridge port (`IFLA_BRIDGE_VLAN_TUNNEL_*`,
/// `include/uapi/linux/if_bridge.h`).
#[derive(Debug, PartialEq, Eq, Drop)]
pub enum BridgeVlanTunnelInfo {
    /// ID of the tunnel, such as the VNI for VXLAN (`IFLA_BRIDGE_VLAN_TUNNEL_ID`, `u32`).
    Id(u32),
    /// VLAN ID, from 1 to 4094 (`IFLA_BRIDGE_VLAN_TUNNEL_VID`, `u16`).
    Vid(u16),
    /// Whether this VLAN is one end of a range (`IFLA_BRIDGE_VLAN_TUNNEL_FLAGS`, `u16`).
    Flags(BridgeVlanInfoFlags),
    /// An element of any other type.
    Other(DefaultNla),
}

/// The attribute types (`IFLA_BRIDGE_VLAN_TUNNEL_*`), the variant of each, and the class of its payload.
macro_rules! rows {
    ($call:ident($($argument:tt)*)) => {
        link_base::by_rows! { $call($($argument)*)
            "IFLA_BRIDGE_VLAN_TUNNEL_";
            IFLA_BRIDGE_VLAN_TUNNEL_ID = 1, Id: u32;
            IFLA_BRIDGE_VLAN_TUNNEL_VID = 2, Vid: u16;
            IFLA_BRIDGE_VLAN_TUNNEL_FLAGS = 3, Flags: FlagBits<BridgeVlanInfoFlags>;
        }
    };
}

impl TryClone for BridgeVlanTunnelInfo {
    fn try_clone(&self, alloc: Global) -> Result<Self, AllocError> {
        rows!(clone(self, alloc))
    }
}

impl Meaning for BridgeVlanTunnelInfo {
    ghost table = { lift_table tunnel_rows };

    ghost means = { λ tunnel. lift (tunnel_leaf tunnel) };
}

impl Nla for BridgeVlanTunnelInfo {
    fn kind(&self) -> u16 {
        rows!(kind(self))
    }

    fn value_len(&self) -> usize {
        rows!(size(self))
    }

    fn emit_value(&self, buffer: &mut [u8]) {
        rows!(emit(self, buffer))
    }
}

impl Parseable for BridgeVlanTunnelInfo {
    fn parse_payload<P: Place<Self>>(
        alloc: Global,
        buffer: &NlaBuffer<'_>,
        place: &mut P,
    ) -> Result<(), DecodeError> {
        rows!(read(alloc, buffer, place))
    }
}

impl AttributeRows for BridgeVlanTunnelInfo {
    #[inline(always)]
    fn visit_row<V: RowVisitor<Self>>(kind: u16, visitor: V) -> V::Output {
        rows!(visit(kind, visitor))
    }
}

impl Attribute for BridgeVlanTunnelInfo {
    ghost use Rattle.link_base.proofs.TableLaws.{lawful};
    ghost use Rattle.link_base.specs.Equality.{of_cases, thorough_fields};
    ghost use Rattle.link_bridge.specs.contracts.af_spec.vlan_info_flags.BridgeVlanInfoFlagsFlagSet.TheImpl.Laws as flags;
    ghost use Rattle.link_bridge.specs.contracts.af_spec.tunnel.BridgeVlanTunnelInfo.{enum};

    ghost lawful = { lawful (lift_table tunnel_rows) };

    ghost well_formed = { refl };

    ghost thorough = { of_cases enum _ _ (Prim.search (thorough_fields, flags.thorough-law)) };
}

impl NestedAttribute for BridgeVlanTunnelInfo {
    ghost rows = { tunnel_rows };

    const FLAGGED: bool = false;

    ghost FLAGGED = { false };

    ghost leaf = { tunnel_leaf };

    ghost same_table = { refl };

    ghost same_means = { λ _. refl };
}
