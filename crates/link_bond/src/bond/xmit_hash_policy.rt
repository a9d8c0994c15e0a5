//! Which fields of a packet a bond hashes to select the port.

ghost use Rattle.std.specs.Prelude.{refl, ◌≡◌, Some};
ghost use Rattle.link_base.specs.Named.{value_of, number_of, displayed, ReadsText};
ghost use Rattle.link_base.specs.Equality.{of_cases, thorough_fields};
ghost use Rattle.link_bond.specs.Names.{xmit_hash_policy_names, xmit_hash_policy_seen, xmit_hash_policy_cases};

use link_base::rows::label::Name;
use link_base::{DecodeError, NamedNumber};
use std::fmt;
use std::str::FromStr;

/// Which fields of a packet are hashed to select its port, in the modes that use a hash (`BOND_XMIT_POLICY_*`,
/// `include/uapi/linux/if_bonding.h`).
#[derive(Clone, Copy, Debug, PartialEq, Eq)]
pub enum BondXmitHashPolicy {
    /// Hardware addresses and packet type (`BOND_XMIT_POLICY_LAYER2`, 0).
    Layer2,
    /// IP addresses and, if the packet has them, port numbers such as those of TCP or UDP (`BOND_XMIT_POLICY_LAYER34`,
    /// 1).
    Layer34,
    /// Hardware addresses, packet type and IP addresses (`BOND_XMIT_POLICY_LAYER23`, 2).
    Layer23,
    /// As `Layer23`, but of the inner headers if the packet is encapsulated in a tunnel (`BOND_XMIT_POLICY_ENCAP23`,
    /// 3).
    Encap23,
    /// As `Layer34`, but of the inner headers if the packet is encapsulated in a tunnel (`BOND_XMIT_POLICY_ENCAP34`,
    /// 4).
    Encap34,
    /// VLAN ID and source hardware address (`BOND_XMIT_POLICY_VLAN_SRCMAC`, 5).
    VlanSrcMac,
    /// Any other number.
    Other(u8),
}

/// The numbers (`include/uapi/linux/if_bonding.h`), variants and `Display` output. Texts after `|` are parsed too.
macro_rules! names {
    ($call:ident($($argument:tt)*)) => {
        link_base::by_names! { $call($($argument)*)
            BOND_XMIT_POLICY_LAYER2 = 0, Layer2, "layer2" | "0";
            BOND_XMIT_POLICY_LAYER34 = 1, Layer34, "layer3+4" | "1";
            BOND_XMIT_POLICY_LAYER23 = 2, Layer23, "layer2+3" | "2";
            BOND_XMIT_POLICY_ENCAP23 = 3, Encap23, "encap2+3" | "3";
            BOND_XMIT_POLICY_ENCAP34 = 4, Encap34, "encap3+4" | "4";
            BOND_XMIT_POLICY_VLAN_SRCMAC = 5, VlanSrcMac, "vlan+srcmac" | "5";
        }
    };
}

impl NamedNumber for BondXmitHashPolicy {
    ghost use Rattle.link_bond.specs.contracts.bond.xmit_hash_policy.BondXmitHashPolicy.{enum};

    type Number = u8;

    ghost names = { xmit_hash_policy_names };

    ghost seen = { xmit_hash_policy_seen };

    fn names() -> &'static [Name] {
        names!(names())
    }

    ghost cases_hold = { (refl, (refl, (refl, (refl, (refl, (refl, tt)))))) };

    ghost other_holds = { λ _. refl };

    ghost no_more = { xmit_hash_policy_cases };

    ghost well_named = { refl };

    ghost thorough = { of_cases enum _ _ (Prim.search (thorough_fields)) };

    ghost from_number = { λ _ _ same. same };

    ghost to_number = { λ _ _ same. same };
}

/// Returns `Layer2`.
impl Default for BondXmitHashPolicy {
    ghost is_default = { λ v. v ≡ value_of xmit_hash_policy_names 0 };

    fn default() -> Self {
        BondXmitHashPolicy::Layer2
    }
}

/// Converts a number to its variant, or to `Other` if the number has no name.
impl From<u8> for BondXmitHashPolicy {
    ghost from_gives = { λ d v. v ≡ value_of xmit_hash_policy_names d };

    fn from(number: u8) -> Self {
        names!(of_number(number))
    }
}

/// Converts a variant to its number.
impl From<BondXmitHashPolicy> for u8 {
    ghost from_gives = { λ v d. d ≡ number_of (xmit_hash_policy_seen v) };

    fn from(value: BondXmitHashPolicy) -> u8 {
        names!(number(BondXmitHashPolicy, value))
    }
}

/// Writes the variant's name, such as `layer2`, or `unknown-variant (n)` for `Other(n)`.
impl fmt::Display for BondXmitHashPolicy {
    ghost output = { λ v. Some (displayed xmit_hash_policy_names (xmit_hash_policy_seen v)) };

    fn fmt<W: fmt::Write>(&self, f: &mut fmt::Formatter<W>) -> fmt::Result {
        names!(display_unknown(self, f))
    }
}

/// Parses a variant's name, as `Display` writes it, or its number, as one digit.
///
/// # Errors
///
/// `Text` for any other input.
impl FromStr for BondXmitHashPolicy {
    type Err = DecodeError;

    ghost from_str_gives = { λ text result. ReadsText xmit_hash_policy_names text result };

    #[tactic(auto, using(std::proofs::lemmas::Fmt::decimal_digit))]
    fn from_str(text: &str) -> Result<Self, DecodeError> {
        names!(parse(text))
    }
}
