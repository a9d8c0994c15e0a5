//! Attributes of `IFLA_PROTINFO` in AF_BRIDGE messages.

ghost use Rattle.std.specs.Prelude.{◌≡◌, map, None};
ghost use Rattle.link_base.specs.Frame.{frame_fault};
ghost use Rattle.link_base.specs.Table.{Gives, Decodes};
ghost use Rattle.link_base.specs.Answers.{ListAnswers, ListFaultUnless, OnListMemory};
ghost use Rattle.link_bridge.specs.ProtoInfo.{proto_info_table, proto_info_means};

use link_base::rows::by_rows::{AttributeRows, RowVisitor};
use link_base::{
    Attribute, DecodeError, DefaultNla, ListError, Meaning, Nla, NlaBuffer, Parseable, Place,
    TryClone, read_list,
};
use std::alloc::{AllocError, Global};

/// A bridge port attribute in `IFLA_PROTINFO` of an AF_BRIDGE message (`IFLA_BRPORT_*`,
/// `include/uapi/linux/if_link.h`).
#[derive(Debug, PartialEq, Eq, Drop)]
pub enum LinkProtoInfoBridge {
    /// Whether gratuitous ARP and unsolicited neighbor advertisements are flooded to the port even if neighbor
    /// suppression is on (`IFLA_BRPORT_NEIGH_FORWARD_GRAT`, `u8`).
    NeighForwardGrat(bool),
    /// An attribute of any other type.
    Other(DefaultNla),
}

/// The attributes of `IFLA_PROTINFO` in an AF_BRIDGE message.
#[derive(Debug, PartialEq, Eq, Drop)]
pub struct VecLinkProtoInfoBridge(pub Vec<LinkProtoInfoBridge>);

impl VecLinkProtoInfoBridge {
    /// Parses the payload of an `IFLA_PROTINFO`, as [`read_list`] does.
    ///
    /// # Errors
    ///
    /// As for [`read_list`].
    pub fn parse(alloc: Global, bytes: &[u8]) -> Result<Self, ListError>
        ensures answer { ListAnswers (λ list. map proto_info_means list.0.items) result
            (Gives proto_info_table) bytes.now }
        ensures fault { ListFaultUnless result (Decodes proto_info_table bytes.now) }
        ensures memory { OnListMemory result (frame_fault bytes.now ≡ None) }
    {
        read_list(alloc, bytes).map(Self)
    }
}

/// The attribute types (`IFLA_BRPORT_*`), the variant of each, and the class of its payload.
macro_rules! rows {
    ($call:ident($($argument:tt)*)) => {
        link_base::by_rows! { $call($($argument)*)
            "IFLA_BRPORT_";
            IFLA_BRPORT_NEIGH_FORWARD_GRAT = 45, NeighForwardGrat: bool;
        }
    };
}

impl TryClone for LinkProtoInfoBridge {
    fn try_clone(&self, alloc: Global) -> Result<Self, AllocError> {
        rows!(clone(self, alloc))
    }
}

impl Meaning for LinkProtoInfoBridge {
    ghost table = { proto_info_table };

    ghost means = { proto_info_means };
}

impl Nla for LinkProtoInfoBridge {
    fn kind(&self) -> u16 {
        rows!(kind(self))
    }

    fn value_len(&self) -> usize {
        rows!(size(self))
    }

    fn emit_value(&self, buffer: &mut [u8]) {
        rows!(emit(self, buffer))
    }
}

impl Parseable for LinkProtoInfoBridge {
    fn parse_payload<P: Place<Self>>(
        alloc: Global,
        buffer: &NlaBuffer<'_>,
        place: &mut P,
    ) -> Result<(), DecodeError> {
        rows!(read(alloc, buffer, place))
    }
}

impl AttributeRows for LinkProtoInfoBridge {
    #[inline(always)]
    fn visit_row<V: RowVisitor<Self>>(kind: u16, visitor: V) -> V::Output {
        rows!(visit(kind, visitor))
    }
}

impl Attribute for LinkProtoInfoBridge {
    ghost use Rattle.std.specs.Prelude.{refl};
    ghost use Rattle.link_base.proofs.TableLaws.{lawful};
    ghost use Rattle.link_base.specs.Equality.{of_cases, thorough_fields};
    ghost use Rattle.link_bridge.specs.contracts.proto_info.LinkProtoInfoBridge.{enum};

    ghost lawful = { lawful proto_info_table };

    ghost well_formed = { refl };

    ghost thorough = { of_cases enum _ _ (Prim.search (thorough_fields)) };
}
