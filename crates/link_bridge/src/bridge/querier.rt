//! The multicast queriers known to a bridge.

use link_base::rows::by_rows::{AttributeRows, RowVisitor};
use link_base::{
    Attribute, DecodeError, DefaultNla, Meaning, NestedAttribute, Nla, NlaBuffer, Parseable, Place,
    TryClone,
};
use std::alloc::{AllocError, Global};
use std::net::{Ipv4Addr, Ipv6Addr};

/// An attribute of the multicast queriers known to a bridge, one for IPv4 and one for IPv6, which the kernel reports
/// (`BRIDGE_QUERIER_*`, `include/uapi/linux/if_bridge.h`). All are read-only. A clock tick is 1/100 second (`USER_HZ`).
#[derive(Debug, PartialEq, Eq, Drop)]
pub enum BridgeQuerierState {
    /// Address of the IGMP querier (`BRIDGE_QUERIER_IP_ADDRESS`, IPv4 address).
    Ipv4Address(Ipv4Addr),
    /// Interface index of the port towards the IGMP querier (`BRIDGE_QUERIER_IP_PORT`, `u32`).
    Ipv4Port(u32),
    /// Time until the IGMP querier is considered gone, in clock ticks (`BRIDGE_QUERIER_IP_OTHER_TIMER`, `u64`).
    Ipv4OtherTimer(u64),
    /// Address of the MLD querier (`BRIDGE_QUERIER_IPV6_ADDRESS`, IPv6 address).
    Ipv6Address(Ipv6Addr),
    /// Interface index of the port towards the MLD querier (`BRIDGE_QUERIER_IPV6_PORT`, `u32`).
    Ipv6Port(u32),
    /// Time until the MLD querier is considered gone, in clock ticks (`BRIDGE_QUERIER_IPV6_OTHER_TIMER`, `u64`).
    Ipv6OtherTimer(u64),
    /// An element of any other type.
    Other(DefaultNla),
}

/// The attribute types (`BRIDGE_QUERIER_*`), the variant of each, and the class of its payload.
macro_rules! rows {
    ($call:ident($($argument:tt)*)) => {
        link_base::by_rows! { $call($($argument)*)
            "BRIDGE_QUERIER_";
            BRIDGE_QUERIER_IP_ADDRESS = 1, Ipv4Address: Ipv4Addr;
            BRIDGE_QUERIER_IP_PORT = 2, Ipv4Port: u32 as InterfaceIndex;
            BRIDGE_QUERIER_IP_OTHER_TIMER = 3, Ipv4OtherTimer: u64 as ClockTicks;
            BRIDGE_QUERIER_IPV6_ADDRESS = 5, Ipv6Address: Ipv6Addr;
            BRIDGE_QUERIER_IPV6_PORT = 6, Ipv6Port: u32 as InterfaceIndex;
            BRIDGE_QUERIER_IPV6_OTHER_TIMER = 7, Ipv6OtherTimer: u64 as ClockTicks;
        }
    };
}

impl TryClone for BridgeQuerierState {
    fn try_clone(&self, alloc: Global) -> Result<Self, AllocError> {
        rows!(clone(self, alloc))
    }
}

impl Meaning for BridgeQuerierState {
    ghost use Rattle.link_base.specs.Lift.{lift, lift_table};
    ghost use Rattle.link_bridge.specs.Querier.{querier_rows, querier_leaf};

    ghost table = { lift_table querier_rows };

    ghost means = { λ querier. lift (querier_leaf querier) };
}

impl Nla for BridgeQuerierState {
    fn kind(&self) -> u16 {
        rows!(kind(self))
    }

    fn value_len(&self) -> usize {
        rows!(size(self))
    }

    fn emit_value(&self, buffer: &mut [u8]) {
        rows!(emit(self, buffer))
    }
}

impl Parseable for BridgeQuerierState {
    fn parse_payload<P: Place<Self>>(
        alloc: Global,
        buffer: &NlaBuffer<'_>,
        place: &mut P,
    ) -> Result<(), DecodeError> {
        rows!(read(alloc, buffer, place))
    }
}

impl AttributeRows for BridgeQuerierState {
    #[inline(always)]
    fn visit_row<V: RowVisitor<Self>>(kind: u16, visitor: V) -> V::Output {
        rows!(visit(kind, visitor))
    }
}

impl Attribute for BridgeQuerierState {
    ghost use Rattle.std.specs.Prelude.{refl};
    ghost use Rattle.link_base.proofs.TableLaws.{lawful};
    ghost use Rattle.link_base.specs.Lift.{lift_table};
    ghost use Rattle.link_bridge.specs.Querier.{querier_rows};
    ghost use Rattle.link_base.specs.Equality.{of_cases, thorough_fields};
    ghost use Rattle.link_bridge.specs.contracts.bridge.querier.BridgeQuerierState.{enum};

    ghost lawful = { lawful (lift_table querier_rows) };

    ghost well_formed = { refl };

    ghost thorough = { of_cases enum _ _ (Prim.search (thorough_fields)) };
}

impl NestedAttribute for BridgeQuerierState {
    ghost use Rattle.std.specs.Prelude.{true, refl};
    ghost use Rattle.link_bridge.specs.Querier.{querier_rows, querier_leaf};

    ghost rows = { querier_rows };

    const FLAGGED: bool = true;

    ghost FLAGGED = { true };

    ghost leaf = { querier_leaf };

    ghost same_table = { refl };

    ghost same_means = { λ _. refl };
}
