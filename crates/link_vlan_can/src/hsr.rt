//! HSR and PRP device attributes (`IFLA_INFO_DATA` of a link whose `IFLA_INFO_KIND` is `hsr`).

ghost use Rattle.std.specs.Prelude.{refl, ◌≡◌, Some};
ghost use Rattle.link_base.specs.Named.{value_of, number_of, displayed};
ghost use Rattle.link_base.specs.Equality.{of_cases, thorough_fields};
ghost use Rattle.link_base.proofs.TableLaws.{lawful};
ghost use Rattle.link_vlan_can.specs.HsrProtocol.{hsr_protocol_names, hsr_protocol_seen, hsr_protocol_cases};
ghost use Rattle.link_vlan_can.specs.Hsr.{hsr_table, hsr_means};

use link_base::rows::by_rows::{AttributeRows, RowVisitor};
use link_base::rows::label::Name;
use link_base::{
    Attribute, DecodeError, DefaultNla, Meaning, Named, NamedNumber, Nla, NlaBuffer, Parseable,
    Place, TryClone,
};
use std::alloc::{AllocError, Global};
use std::fmt;

/// A protocol that sends each frame twice (`HSR_PROTOCOL_*`, `include/uapi/linux/if_link.h`).
#[derive(Clone, Copy, Debug, PartialEq, Eq)]
pub enum HsrProtocol {
    /// High-availability Seamless Redundancy: in both directions around a ring (`HSR_PROTOCOL_HSR`, 0).
    Hsr,
    /// Parallel Redundancy Protocol: over two networks (`HSR_PROTOCOL_PRP`, 1).
    Prp,
    /// Any other number.
    Other(u8),
}

/// The numbers (`HSR_PROTOCOL_*`, `include/uapi/linux/if_link.h`), variants and `Display` output.
macro_rules! names {
    ($call:ident($($argument:tt)*)) => {
        link_base::by_names! { $call($($argument)*)
            HSR_PROTOCOL_HSR = 0, Hsr, "hsr";
            HSR_PROTOCOL_PRP = 1, Prp, "prp";
        }
    };
}

impl NamedNumber for HsrProtocol {
    ghost use Rattle.link_vlan_can.specs.contracts.hsr.HsrProtocol.{enum};

    type Number = u8;

    ghost names = { hsr_protocol_names };

    ghost seen = { hsr_protocol_seen };

    fn names() -> &'static [Name] {
        names!(names())
    }

    ghost cases_hold = { (refl, (refl, tt)) };

    ghost other_holds = { λ _. refl };

    ghost no_more = { hsr_protocol_cases };

    ghost well_named = { refl };

    ghost thorough = { of_cases enum _ _ (Prim.search (thorough_fields)) };

    ghost from_number = { λ _ _ same. same };

    ghost to_number = { λ _ _ same. same };
}

/// Converts a number to its variant, or to `Other` if the number has no name.
impl From<u8> for HsrProtocol {
    ghost from_gives = { λ d p. p ≡ value_of hsr_protocol_names d };

    fn from(number: u8) -> Self {
        names!(of_number(number))
    }
}

/// Converts a variant to its number.
impl From<HsrProtocol> for u8 {
    ghost from_gives = { λ p d. d ≡ number_of (hsr_protocol_seen p) };

    fn from(protocol: HsrProtocol) -> u8 {
        names!(number(HsrProtocol, protocol))
    }
}

/// Writes the variant's name, such as `hsr`, or the number in decimal for `Other`.
impl fmt::Display for HsrProtocol {
    ghost output = { λ p. Some (displayed hsr_protocol_names (hsr_protocol_seen p)) };

    fn fmt<W: fmt::Write>(&self, f: &mut fmt::Formatter<W>) -> fmt::Result {
        names!(display(self, f))
    }
}

/// An HSR or PRP device attribute (`IFLA_HSR_*`, `include/uapi/linux/if_link.h`).
///
/// Attributes marked read-only are reported by the kernel and cannot be set.
#[derive(Debug, PartialEq, Eq, Drop)]
pub enum InfoHsr {
    /// Interface index of the first port (`IFLA_HSR_SLAVE1`, `u32`).
    Port1(u32),
    /// Interface index of the second port (`IFLA_HSR_SLAVE2`, `u32`).
    Port2(u32),
    /// Last octet of the multicast address of supervision frames (`IFLA_HSR_MULTICAST_SPEC`, `u8`).
    MulticastSpec(u8),
    /// Destination address of supervision frames (`IFLA_HSR_SUPERVISION_ADDR`, `[u8; 6]`, read-only).
    SupervisionAddr([u8; 6]),
    /// Sequence number of the next frame (`IFLA_HSR_SEQ_NR`, `u16`, read-only).
    SeqNr(u16),
    /// HSR version: 0 for HSR of 2010, 1 for HSR of 2012 (`IFLA_HSR_VERSION`, `u8`).
    Version(u8),
    /// Protocol, HSR or PRP (`IFLA_HSR_PROTOCOL`, `u8`).
    Protocol(HsrProtocol),
    /// Interface index of the port that connects the ring to another network (`IFLA_HSR_INTERLINK`, `u32`).
    Interlink(u32),
    /// An attribute of any other type.
    Other(DefaultNla),
}

/// The attribute types (`IFLA_HSR_*`), the variant of each, and the class of its payload.
macro_rules! rows {
    ($call:ident($($argument:tt)*)) => {
        link_base::by_rows! { $call($($argument)*)
            "IFLA_HSR_";
            IFLA_HSR_SLAVE1 = 1, Port1: u32 as InterfaceIndex;
            IFLA_HSR_SLAVE2 = 2, Port2: u32 as InterfaceIndex;
            IFLA_HSR_MULTICAST_SPEC = 3, MulticastSpec: u8;
            IFLA_HSR_SUPERVISION_ADDR = 4, SupervisionAddr: [u8; 6];
            IFLA_HSR_SEQ_NR = 5, SeqNr: u16;
            IFLA_HSR_VERSION = 6, Version: u8;
            IFLA_HSR_PROTOCOL = 7, Protocol: Named<HsrProtocol>;
            IFLA_HSR_INTERLINK = 8, Interlink: u32 as InterfaceIndex;
        }
    };
}

impl TryClone for InfoHsr {
    fn try_clone(&self, alloc: Global) -> Result<Self, AllocError> {
        rows!(clone(self, alloc))
    }
}

impl Meaning for InfoHsr {
    ghost table = { hsr_table };

    ghost means = { hsr_means };
}

impl Nla for InfoHsr {
    fn kind(&self) -> u16 {
        rows!(kind(self))
    }

    fn value_len(&self) -> usize {
        rows!(size(self))
    }

    fn emit_value(&self, buffer: &mut [u8]) {
        rows!(emit(self, buffer))
    }
}

impl Parseable for InfoHsr {
    fn parse_payload<P: Place<Self>>(
        alloc: Global,
        buffer: &NlaBuffer<'_>,
        place: &mut P,
    ) -> Result<(), DecodeError> {
        rows!(read(alloc, buffer, place))
    }
}

impl AttributeRows for InfoHsr {
    #[inline(always)]
    fn visit_row<V: RowVisitor<Self>>(kind: u16, visitor: V) -> V::Output {
        rows!(visit(kind, visitor))
    }
}

impl Attribute for InfoHsr {
    ghost use Rattle.link_vlan_can.specs.contracts.hsr.HsrProtocolNamedNumber.TheImpl.Laws as protocols;
    ghost use Rattle.link_vlan_can.specs.contracts.hsr.InfoHsr.{enum};

    ghost lawful = { lawful hsr_table };

    ghost well_formed = { refl };

    ghost thorough = { of_cases enum _ _ (Prim.search (thorough_fields, protocols.thorough-law)) };
}
