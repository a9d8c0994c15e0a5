//! The active aggregator of a bond.

ghost use Rattle.std.specs.Prelude.{refl, false};
ghost use Rattle.link_base.specs.Lift.{lift, lift_table};
ghost use Rattle.link_bond.specs.AdInfo.{ad_info_rows, ad_info_leaf};

use link_base::rows::by_rows::{AttributeRows, RowVisitor};
use link_base::{
    Attribute, DecodeError, DefaultNla, Meaning, NestedAttribute, Nla, NlaBuffer, Parseable, Place,
    TryClone,
};
use std::alloc::{AllocError, Global};

/// An attribute of the active aggregator, which the kernel reports for a bond in mode `Ieee8023Ad`
/// (`IFLA_BOND_AD_INFO_*`, `include/uapi/linux/if_link.h`). All are read-only.
#[derive(Debug, PartialEq, Eq, Drop)]
pub enum BondAdInfo {
    /// ID of the aggregator (`IFLA_BOND_AD_INFO_AGGREGATOR`, `u16`).
    Aggregator(u16),
    /// Number of ports of the aggregator (`IFLA_BOND_AD_INFO_NUM_PORTS`, `u16`).
    NumPorts(u16),
    /// Key of the LACP actor, which is this side (`IFLA_BOND_AD_INFO_ACTOR_KEY`, `u16`).
    ActorKey(u16),
    /// Key of the LACP partner (`IFLA_BOND_AD_INFO_PARTNER_KEY`, `u16`).
    PartnerKey(u16),
    /// Hardware address of the LACP partner's system (`IFLA_BOND_AD_INFO_PARTNER_MAC`, `[u8; 6]`).
    PartnerMac([u8; 6]),
    /// An element of any other type.
    Other(DefaultNla),
}

/// The attribute types (`IFLA_BOND_AD_INFO_*`), the variant of each, and the class of its payload.
macro_rules! rows {
    ($call:ident($($argument:tt)*)) => {
        link_base::by_rows! { $call($($argument)*)
            "IFLA_BOND_AD_INFO_";
            IFLA_BOND_AD_INFO_AGGREGATOR = 1, Aggregator: u16;
            IFLA_BOND_AD_INFO_NUM_PORTS = 2, NumPorts: u16;
            IFLA_BOND_AD_INFO_ACTOR_KEY = 3, ActorKey: u16;
            IFLA_BOND_AD_INFO_PARTNER_KEY = 4, PartnerKey: u16;
            IFLA_BOND_AD_INFO_PARTNER_MAC = 5, PartnerMac: [u8; 6];
        }
    };
}

impl TryClone for BondAdInfo {
    fn try_clone(&self, alloc: Global) -> Result<Self, AllocError> {
        rows!(clone(self, alloc))
    }
}

impl Meaning for BondAdInfo {
    ghost table = { lift_table ad_info_rows };

    ghost means = { λ info. lift (ad_info_leaf info) };
}

impl Nla for BondAdInfo {
    fn kind(&self) -> u16 {
        rows!(kind(self))
    }

    fn value_len(&self) -> usize {
        rows!(size(self))
    }

    fn emit_value(&self, buffer: &mut [u8]) {
        rows!(emit(self, buffer))
    }
}

impl Parseable for BondAdInfo {
    fn parse_payload<P: Place<Self>>(
        alloc: Global,
        buffer: &NlaBuffer<'_>,
        place: &mut P,
    ) -> Result<(), DecodeError> {
        rows!(read(alloc, buffer, place))
    }
}

impl AttributeRows for BondAdInfo {
    #[inline(always)]
    fn visit_row<V: RowVisitor<Self>>(kind: u16, visitor: V) -> V::Output {
        rows!(visit(kind, visitor))
    }
}

impl Attribute for BondAdInfo {
    ghost use Rattle.link_base.proofs.TableLaws.{lawful};
    ghost use Rattle.link_base.specs.Equality.{of_cases, thorough_fields};
    ghost use Rattle.link_bond.specs.contracts.bond.ad_info.BondAdInfo.{enum};

    ghost lawful = { lawful (lift_table ad_info_rows) };

    ghost well_formed = { refl };

    ghost thorough = { of_cases enum _ _ (Prim.search (thorough_fields)) };
}

impl NestedAttribute for BondAdInfo {
    ghost rows = { ad_info_rows };

    const FLAGGED: bool = false;

    ghost FLAGGED = { false };

    ghost leaf = { ad_info_leaf };

    ghost same_table = { refl };

    ghost same_means = { λ _. refl };
}
