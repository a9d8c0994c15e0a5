//! The protocols of VLAN tags.

ghost use Rattle.std.specs.Prelude.{◌≡◌, Some};
ghost use Rattle.link_base.specs.Named.{value_of, text_of, ReadsText};
ghost use Rattle.link_base.specs.Protocol.{vlan_protocols, protocol_number};

use crate::rows::label::Name;
use crate::wire::fault::{DecodeError, DecodeFault};
use std::fmt;
use std::str::FromStr;

/// `ETH_P_8021Q`, `include/uapi/linux/if_ether.h`.
const ETH_P_8021Q: u16 = 0x8100;

/// `ETH_P_8021AD`.
const ETH_P_8021AD: u16 = 0x88A8;

/// The protocol of a VLAN tag, by its EtherType (`include/uapi/linux/if_ether.h`).
#[derive(Clone, Copy, Debug, PartialEq, Eq, Default)]
pub enum VlanProtocol {
    /// Customer tag, `802.1Q` (`ETH_P_8021Q`, 0x8100).
    #[default]
    Ieee8021Q,
    /// Service provider tag, `802.1ad` (`ETH_P_8021AD`, 0x88A8).
    Ieee8021Ad,
}

impl VlanProtocol {
    ghost use Rattle.link_base.specs.Labels.{names_in};
    ghost use Rattle.link_base.specs.Named.{texts_of};

    /// Returns the names of the EtherTypes.
    pub fn names() -> &'static [Name]
        ensures { names_in result.now ≡ texts_of vlan_protocols }
    {
        &[
            Name {
                number: ETH_P_8021Q as u64,
                text: "802.1Q",
            },
            Name {
                number: ETH_P_8021AD as u64,
                text: "802.1ad",
            },
        ]
    }
}

/// Converts an EtherType to a protocol: `Ieee8021Q` for every number except 0x88A8.
impl From<u16> for VlanProtocol {
    ghost from_gives = { λ d p. p ≡ value_of vlan_protocols d };

    fn from(number: u16) -> Self {
        match number {
            ETH_P_8021AD => VlanProtocol::Ieee8021Ad,
            _ => VlanProtocol::Ieee8021Q,
        }
    }
}

/// Converts a protocol to its EtherType.
impl From<VlanProtocol> for u16 {
    ghost from_gives = { λ p d. d ≡ protocol_number p };

    fn from(protocol: VlanProtocol) -> u16 {
        match protocol {
            VlanProtocol::Ieee8021Q => ETH_P_8021Q,
            VlanProtocol::Ieee8021Ad => ETH_P_8021AD,
        }
    }
}

/// Writes `802.1Q` or `802.1ad`.
impl fmt::Display for VlanProtocol {
    ghost output = { λ p. Some (text_of vlan_protocols.labels (protocol_number p)) };

    fn fmt<W: fmt::Write>(&self, f: &mut fmt::Formatter<W>) -> fmt::Result {
        f.write_str(match self {
            VlanProtocol::Ieee8021Q => "802.1Q",
            VlanProtocol::Ieee8021Ad => "802.1ad",
        })
    }
}

/// Parses `802.1Q` or `802.1ad`, case-insensitively.
///
/// # Errors
///
/// `Text` for every other string.
impl FromStr for VlanProtocol {
    type Err = DecodeError;

    ghost from_str_gives = { λ text result. ReadsText vlan_protocols text result };

    fn from_str(text: &str) -> Result<Self, DecodeError> {
        if text.eq_ignore_ascii_case("802.1Q") {
            Ok(VlanProtocol::Ieee8021Q)
        } else if text.eq_ignore_ascii_case("802.1ad") {
            Ok(VlanProtocol::Ieee8021Ad)
        } else {
            Err(DecodeError::Fault(DecodeFault::Text))
        }
    }
}
