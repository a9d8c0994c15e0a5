//! Attributes of `IFLA_AF_SPEC` in AF_BRIDGE messages.

ghost use Rattle.std.specs.Prelude.{◌≡◌, map, None};
ghost use Rattle.link_base.specs.Frame.{frame_fault};
ghost use Rattle.link_base.specs.Table.{Gives, Decodes};
ghost use Rattle.link_base.specs.Answers.{ListAnswers, ListFaultUnless, OnListMemory};
ghost use Rattle.link_bridge.specs.AfSpecBridge.{af_spec_bridge_table, af_spec_bridge_means};

mod flag;
mod mode;
mod tunnel;
mod vlan_info;
mod vlan_info_flags;

pub use flag::BridgeFlag;
use link_base::rows::by_rows::{AttributeRows, RowVisitor};
use link_base::{
    Attribute, DecodeError, DefaultNla, ListError, Meaning, Named, NestedList, Nla, NlaBuffer,
    Parseable, Place, Struct, TryClone, read_list,
};
pub use mode::BridgeMode;
use std::alloc::{AllocError, Global};
pub use tunnel::BridgeVlanTunnelInfo;
pub use vlan_info::BridgeVlanInfo;
pub use vlan_info_flags::BridgeVlanInfoFlags;

/// An attribute of a bridge or bridge port in `IFLA_AF_SPEC` of an AF_BRIDGE message (`IFLA_BRIDGE_*`,
/// `include/uapi/linux/if_bridge.h`).
#[derive(Debug, PartialEq, Eq, Drop)]
pub enum AfSpecBridge {
    /// Whose settings the message sets or reports (`IFLA_BRIDGE_FLAGS`, attribute type 0, `u16`).
    Flags(BridgeFlag),
    /// How the device handles frames between its own ports (`IFLA_BRIDGE_MODE`, `u16`).
    Mode(BridgeMode),
    /// A VLAN of the bridge or port, or one end of a range of VLANs (`IFLA_BRIDGE_VLAN_INFO`,
    /// `struct bridge_vlan_info`).
    VlanInfo(BridgeVlanInfo),
    /// A VLAN that is mapped to a tunnel, or one end of a range of such VLANs (`IFLA_BRIDGE_VLAN_TUNNEL_INFO`, a nested
    /// list).
    VlanTunnelInfo(Vec<BridgeVlanTunnelInfo>),
    /// An attribute of any other type.
    Other(DefaultNla),
}

/// The attributes of `IFLA_AF_SPEC` in an AF_BRIDGE message.
#[derive(Debug, PartialEq, Eq, Drop)]
pub struct VecAfSpecBridge(pub Vec<AfSpecBridge>);

impl VecAfSpecBridge {
    /// Parses the payload of an `IFLA_AF_SPEC`, as [`read_list`] does.
    ///
    /// # Errors
    ///
    /// As for [`read_list`].
    pub fn parse(alloc: Global, bytes: &[u8]) -> Result<Self, ListError>
        ensures answer { ListAnswers (λ list. map af_spec_bridge_means list.0.items) result (Gives af_spec_bridge_table) bytes.now }
        ensures fault { ListFaultUnless result (Decodes af_spec_bridge_table bytes.now) }
        ensures memory { OnListMemory result (frame_fault bytes.now ≡ None) }
    {
        read_list(alloc, bytes).map(Self)
    }
}

/// The attribute types (`IFLA_BRIDGE_*`), the variant of each, and the class of its payload.
macro_rules! rows {
    ($call:ident($($argument:tt)*)) => {
        link_base::by_rows! { $call($($argument)*)
            "IFLA_BRIDGE_";
            IFLA_BRIDGE_FLAGS = 0, Flags: Named<BridgeFlag>;
            IFLA_BRIDGE_MODE = 1, Mode: Named<BridgeMode>;
            IFLA_BRIDGE_VLAN_INFO = 2, VlanInfo: Struct<BridgeVlanInfo>;
            IFLA_BRIDGE_VLAN_TUNNEL_INFO = 3, VlanTunnelInfo: NestedList<BridgeVlanTunnelInfo>;
        }
    };
}

impl TryClone for AfSpecBridge {
    fn try_clone(&self, alloc: Global) -> Result<Self, AllocError> {
        rows!(clone(self, alloc))
    }
}

impl Meaning for AfSpecBridge {
    ghost table = { af_spec_bridge_table };

    ghost means = { af_spec_bridge_means };
}

impl Nla for AfSpecBridge {
    fn kind(&self) -> u16 {
        rows!(kind(self))
    }

    fn value_len(&self) -> usize {
        rows!(size(self))
    }

    fn emit_value(&self, buffer: &mut [u8]) {
        rows!(emit(self, buffer))
    }
}

impl Parseable for AfSpecBridge {
    fn parse_payload<P: Place<Self>>(
        alloc: Global,
        buffer: &NlaBuffer<'_>,
        place: &mut P,
    ) -> Result<(), DecodeError> {
        rows!(read(alloc, buffer, place))
    }
}

impl AttributeRows for AfSpecBridge {
    #[inline(always)]
    fn visit_row<V: RowVisitor<Self>>(kind: u16, visitor: V) -> V::Output {
        rows!(visit(kind, visitor))
    }
}

impl Attribute for AfSpecBridge {
    ghost use Rattle.std.specs.Prelude.{refl};
    ghost use Rattle.link_base.proofs.TableLaws.{lawful};
    ghost use Rattle.link_base.specs.Equality.{of_cases, thorough_fields};
    ghost use Rattle.link_bridge.specs.BridgeEquality.{vlan_infos};
    ghost use Rattle.link_bridge.specs.contracts.af_spec.flag.BridgeFlagNamedNumber.TheImpl.Laws as flags;
    ghost use Rattle.link_bridge.specs.contracts.af_spec.mode.BridgeModeNamedNumber.TheImpl.Laws as modes;
    ghost use Rattle.link_bridge.specs.contracts.af_spec.tunnel.BridgeVlanTunnelInfoAttribute.TheImpl.Laws as tunnels;
    ghost use Rattle.link_bridge.specs.contracts.af_spec.AfSpecBridge.{enum};

    ghost lawful = { lawful af_spec_bridge_table };

    ghost well_formed = { refl };

    ghost thorough = { of_cases enum _ _
        (Prim.search (thorough_fields, vlan_infos, flags.thorough-law, modes.thorough-law, tunnels.thorough-law)) };
}
