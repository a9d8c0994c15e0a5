//! VLAN device attributes (`IFLA_INFO_DATA` of a link whose `IFLA_INFO_KIND` is `vlan`).

ghost use Rattle.std.specs.Prelude.{refl, false};
ghost use Rattle.link_base.proofs.TableLaws.{lawful};
ghost use Rattle.link_base.specs.Lift.{lift, lift_table};
ghost use Rattle.link_base.specs.Equality.{of_cases, thorough_fields, pairs, numbers};
ghost use Rattle.link_vlan_can.specs.Vlan.{mapping_rows, mapping_leaf, vlan_table, vlan_means};

use crate::vlan_flags::VlanFlags;
use link_base::rows::by_rows::{AttributeRows, RowVisitor};
use link_base::{
    Attribute, DecodeError, DefaultNla, MaskedFlags, Meaning, NestedAttribute, NestedList, Nla,
    NlaBuffer, Parseable, Place, TryClone, VlanProtocol,
};
use std::alloc::{AllocError, Global};

/// An element of a list of priority mappings (`IFLA_VLAN_QOS_MAPPING`, `include/uapi/linux/if_link.h`).
#[derive(Debug, PartialEq, Eq, Drop)]
pub enum VlanQosMapping {
    /// Maps the first priority to the second: in `EgressQos` a packet priority to a tag priority, in `IngressQos` a tag
    /// priority to a packet priority (`struct ifla_vlan_qos_mapping`, two `u32`s). Tag priorities are 0 to 7.
    Mapping(u32, u32),
    /// An element of any other type.
    Other(DefaultNla),
}

/// The attribute type (`IFLA_VLAN_QOS_MAPPING`), its variant, and the class of its payload.
macro_rules! mapping_rows {
    ($call:ident($($argument:tt)*)) => {
        link_base::by_rows! { $call($($argument)*)
            "IFLA_VLAN_QOS_";
            IFLA_VLAN_QOS_MAPPING = 1, Mapping(from, to): (u32, u32);
        }
    };
}

impl TryClone for VlanQosMapping {
    fn try_clone(&self, alloc: Global) -> Result<Self, AllocError> {
        mapping_rows!(clone(self, alloc))
    }
}

impl Meaning for VlanQosMapping {
    ghost table = { lift_table mapping_rows };

    ghost means = { λ mapping. lift (mapping_leaf mapping) };
}

impl Nla for VlanQosMapping {
    fn kind(&self) -> u16 {
        mapping_rows!(kind(self))
    }

    fn value_len(&self) -> usize {
        mapping_rows!(size(self))
    }

    fn emit_value(&self, buffer: &mut [u8]) {
        mapping_rows!(emit(self, buffer))
    }
}

impl Parseable for VlanQosMapping {
    fn parse_payload<P: Place<Self>>(
        alloc: Global,
        buffer: &NlaBuffer<'_>,
        place: &mut P,
    ) -> Result<(), DecodeError> {
        mapping_rows!(read(alloc, buffer, place))
    }
}

impl AttributeRows for VlanQosMapping {
    #[inline(always)]
    fn visit_row<V: RowVisitor<Self>>(kind: u16, visitor: V) -> V::Output {
        mapping_rows!(visit(kind, visitor))
    }
}

impl Attribute for VlanQosMapping {
    ghost use Rattle.link_vlan_can.specs.contracts.vlan.VlanQosMapping.{enum};

    ghost lawful = { lawful (lift_table mapping_rows) };

    ghost well_formed = { refl };

    ghost thorough = { of_cases enum _ _ (Prim.search (thorough_fields, pairs numbers numbers)) };
}

impl NestedAttribute for VlanQosMapping {
    ghost rows = { mapping_rows };

    const FLAGGED: bool = false;

    ghost FLAGGED = { false };

    ghost leaf = { mapping_leaf };

    ghost same_table = { refl };

    ghost same_means = { λ _. refl };
}

/// A VLAN device attribute (`IFLA_VLAN_*`, `include/uapi/linux/if_link.h`).
#[derive(Debug, PartialEq, Eq, Drop)]
pub enum InfoVlan {
    /// VLAN ID; valid ones are 0 to 4094 (`IFLA_VLAN_ID`, `u16`).
    Id(u16),
    /// The flags that are on, and the mask: in a request, the flags to change; in a report, all bits
    /// (`IFLA_VLAN_FLAGS`, `struct ifla_vlan_flags`, two `u32`s).
    Flags((VlanFlags, VlanFlags)),
    /// How packet priorities are mapped to tag priorities on transmission (`IFLA_VLAN_EGRESS_QOS`, a nested list).
    EgressQos(Vec<VlanQosMapping>),
    /// How tag priorities are mapped to packet priorities on reception (`IFLA_VLAN_INGRESS_QOS`, a nested list).
    IngressQos(Vec<VlanQosMapping>),
    /// Tag protocol (`IFLA_VLAN_PROTOCOL`, `u16`, big-endian).
    Protocol(VlanProtocol),
    /// An attribute of any other type.
    Other(DefaultNla),
}

/// The attribute types (`IFLA_VLAN_*`), the variant of each, and the class of its payload.
macro_rules! rows {
    ($call:ident($($argument:tt)*)) => {
        link_base::by_rows! { $call($($argument)*)
            "IFLA_VLAN_";
            IFLA_VLAN_ID = 1, Id: u16;
            IFLA_VLAN_FLAGS = 2, Flags: MaskedFlags<VlanFlags>;
            IFLA_VLAN_EGRESS_QOS = 3, EgressQos: NestedList<VlanQosMapping>;
            IFLA_VLAN_INGRESS_QOS = 4, IngressQos: NestedList<VlanQosMapping>;
            IFLA_VLAN_PROTOCOL = 5, Protocol: VlanProtocol;
        }
    };
}

impl TryClone for InfoVlan {
    fn try_clone(&self, alloc: Global) -> Result<Self, AllocError> {
        rows!(clone(self, alloc))
    }
}

impl Meaning for InfoVlan {
    ghost table = { vlan_table };

    ghost means = { vlan_means };
}

impl Nla for InfoVlan {
    fn kind(&self) -> u16 {
        rows!(kind(self))
    }

    fn value_len(&self) -> usize {
        rows!(size(self))
    }

    fn emit_value(&self, buffer: &mut [u8]) {
        rows!(emit(self, buffer))
    }
}

impl Parseable for InfoVlan {
    fn parse_payload<P: Place<Self>>(
        alloc: Global,
        buffer: &NlaBuffer<'_>,
        place: &mut P,
    ) -> Result<(), DecodeError> {
        rows!(read(alloc, buffer, place))
    }
}

impl AttributeRows for InfoVlan {
    #[inline(always)]
    fn visit_row<V: RowVisitor<Self>>(kind: u16, visitor: V) -> V::Output {
        rows!(visit(kind, visitor))
    }
}

impl Attribute for InfoVlan {
    ghost use Rattle.link_vlan_can.specs.contracts.vlan.VlanQosMappingAttribute.TheImpl.Laws as mappings;
    ghost use Rattle.link_vlan_can.specs.VlanFlags.{masked};
    ghost use Rattle.link_vlan_can.specs.contracts.vlan.InfoVlan.{enum};

    ghost lawful = { lawful vlan_table };

    ghost well_formed = { refl };

    ghost thorough = { of_cases enum _ _
        (Prim.search (thorough_fields, masked, mappings.thorough-law)) };
}
