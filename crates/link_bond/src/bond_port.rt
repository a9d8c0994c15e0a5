//! Bond port attributes (`IFLA_INFO_SLAVE_DATA` of a link whose `IFLA_INFO_SLAVE_KIND` is `bond`).

ghost use Rattle.link_bond.specs.BondPort.{bond_port_table, bond_port_means};

mod churn_state;
mod lacp_state;
mod mii_status;
mod port_state;

pub use churn_state::ChurnState;
pub use lacp_state::LacpState;
use link_base::rows::by_rows::{AttributeRows, RowVisitor};
use link_base::{
    Attribute, DecodeError, DefaultNla, FlagBits, LowFlagBits, Meaning, Named, Nla, NlaBuffer,
    Parseable, Place, TryClone,
};
pub use mii_status::MiiStatus;
pub use port_state::BondPortState;
use std::alloc::{AllocError, Global};

/// A bond port attribute (`IFLA_BOND_SLAVE_*`, `include/uapi/linux/if_link.h`).
///
/// Attributes marked read-only are reported by the kernel and cannot be set.
#[derive(Debug, PartialEq, Eq, Drop)]
pub enum InfoBondPort {
    /// Whether the port carries the traffic of the bond (`IFLA_BOND_SLAVE_STATE`, `u8`, read-only).
    BondPortState(BondPortState),
    /// Link state of the port, as the bond sees it (`IFLA_BOND_SLAVE_MII_STATUS`, `u8`, read-only).
    MiiStatus(MiiStatus),
    /// Number of link failures (`IFLA_BOND_SLAVE_LINK_FAILURE_COUNT`, `u32`, read-only).
    LinkFailureCount(u32),
    /// Permanent hardware address of the port (`IFLA_BOND_SLAVE_PERM_HWADDR`, any number of bytes, read-only).
    PermHwaddr(Vec<u8>),
    /// ID of the queue whose packets are sent from the port; 0 for none (`IFLA_BOND_SLAVE_QUEUE_ID`, `u16`).
    QueueId(u16),
    /// ID of the port's aggregator (`IFLA_BOND_SLAVE_AD_AGGREGATOR_ID`, `u16`, read-only).
    AdAggregatorId(u16),
    /// State of the LACP actor, which is this side (`IFLA_BOND_SLAVE_AD_ACTOR_OPER_PORT_STATE`, `u8`, read-only).
    AdActorOperPortState(LacpState),
    /// State of the LACP partner (`IFLA_BOND_SLAVE_AD_PARTNER_OPER_PORT_STATE`, two bytes, read-only). The first byte
    /// is the state; the second is written as 0.
    AdPartnerOperPortState(LacpState),
    /// Priority of the port when the active port is chosen; the highest wins (`IFLA_BOND_SLAVE_PRIO`, `i32`).
    Prio(i32),
    /// LACP priority of the port (`IFLA_BOND_SLAVE_ACTOR_PORT_PRIO`, `u16`).
    ActorPortPrio(u16),
    /// Whether the LACP actor reaches synchronization in time (`IFLA_BOND_SLAVE_AD_CHURN_ACTOR_STATE`, `u8`,
    /// read-only).
    AdChurnActorState(ChurnState),
    /// Whether the LACP partner reaches synchronization in time (`IFLA_BOND_SLAVE_AD_CHURN_PARTNER_STATE`, `u8`,
    /// read-only).
    AdChurnPartnerState(ChurnState),
    /// An attribute of any other type.
    Other(DefaultNla),
}

/// The attribute types (`IFLA_BOND_SLAVE_*`), the variant of each, and the class of its payload.
macro_rules! rows {
    ($call:ident($($argument:tt)*)) => {
        link_base::by_rows! { $call($($argument)*)
            "IFLA_BOND_SLAVE_";
            IFLA_BOND_SLAVE_STATE = 1, BondPortState: Named<BondPortState>;
            IFLA_BOND_SLAVE_MII_STATUS = 2, MiiStatus: Named<MiiStatus>;
            IFLA_BOND_SLAVE_LINK_FAILURE_COUNT = 3, LinkFailureCount: u32;
            IFLA_BOND_SLAVE_PERM_HWADDR = 4, PermHwaddr: Vec<u8>;
            IFLA_BOND_SLAVE_QUEUE_ID = 5, QueueId: u16;
            IFLA_BOND_SLAVE_AD_AGGREGATOR_ID = 6, AdAggregatorId: u16;
            IFLA_BOND_SLAVE_AD_ACTOR_OPER_PORT_STATE = 7, AdActorOperPortState: FlagBits<LacpState>;
            IFLA_BOND_SLAVE_AD_PARTNER_OPER_PORT_STATE = 8, AdPartnerOperPortState: LowFlagBits<LacpState>;
            IFLA_BOND_SLAVE_PRIO = 9, Prio: i32;
            IFLA_BOND_SLAVE_ACTOR_PORT_PRIO = 10, ActorPortPrio: u16;
            IFLA_BOND_SLAVE_AD_CHURN_ACTOR_STATE = 11, AdChurnActorState: Named<ChurnState>;
            IFLA_BOND_SLAVE_AD_CHURN_PARTNER_STATE = 12, AdChurnPartnerState: Named<ChurnState>;
        }
    };
}

impl TryClone for InfoBondPort {
    fn try_clone(&self, alloc: Global) -> Result<Self, AllocError> {
        rows!(clone(self, alloc))
    }
}

impl Meaning for InfoBondPort {
    ghost table = { bond_port_table };

    ghost means = { bond_port_means };
}

impl Nla for InfoBondPort {
    fn kind(&self) -> u16 {
        rows!(kind(self))
    }

    fn value_len(&self) -> usize {
        rows!(size(self))
    }

    fn emit_value(&self, buffer: &mut [u8]) {
        rows!(emit(self, buffer))
    }
}

impl Parseable for InfoBondPort {
    fn parse_payload<P: Place<Self>>(
        alloc: Global,
        buffer: &NlaBuffer<'_>,
        place: &mut P,
    ) -> Result<(), DecodeError> {
        rows!(read(alloc, buffer, place))
    }
}

impl AttributeRows for InfoBondPort {
    #[inline(always)]
    fn visit_row<V: RowVisitor<Self>>(kind: u16, visitor: V) -> V::Output {
        rows!(visit(kind, visitor))
    }
}

impl Attribute for InfoBondPort {
    ghost use Rattle.std.specs.Prelude.{refl};
    ghost use Rattle.link_base.proofs.TableLaws.{lawful};
    ghost use Rattle.link_base.specs.Equality.{of_cases, thorough_fields};
    ghost use Rattle.link_bond.specs.contracts.bond_port.port_state.BondPortStateNamedNumber.TheImpl.Laws as states;
    ghost use Rattle.link_bond.specs.contracts.bond_port.mii_status.MiiStatusNamedNumber.TheImpl.Laws as statuses;
    ghost use Rattle.link_bond.specs.contracts.bond_port.churn_state.ChurnStateNamedNumber.TheImpl.Laws as churn_states;
    ghost use Rattle.link_bond.specs.contracts.bond_port.lacp_state.LacpStateFlagSet.TheImpl.Laws as flags;
    ghost use Rattle.link_bond.specs.contracts.bond_port.InfoBondPort.{enum};

    ghost lawful = { lawful bond_port_table };

    ghost well_formed = { refl };

    ghost thorough = { of_cases enum _ _
        (Prim.search (
          thorough_fields,
          states.thorough-law,
          statuses.thorough-law,
          churn_states.thorough-law,
          flags.thorough-law,
        )) };
}
