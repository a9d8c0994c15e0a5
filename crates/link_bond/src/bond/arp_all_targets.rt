//! How many ARP targets a bond port must reach.

ghost use Rattle.std.specs.Prelude.{refl, ◌≡◌, Some};
ghost use Rattle.link_base.specs.Named.{value_of, number_of, displayed, ReadsText};
ghost use Rattle.link_base.specs.Equality.{of_cases, thorough_fields};
ghost use Rattle.link_bond.specs.Names.{arp_all_targets_names, arp_all_targets_seen, arp_all_targets_cases};

use link_base::rows::label::Name;
use link_base::{DecodeError, NamedNumber};
use std::fmt;
use std::str::FromStr;

/// How many ARP targets a port must reach to be considered up (`BOND_ARP_TARGETS_*`, `include/net/bonding.h`).
#[derive(Clone, Copy, Debug, PartialEq, Eq)]
pub enum BondArpAllTargets {
    /// At least one (`BOND_ARP_TARGETS_ANY`, 0).
    Any,
    /// All (`BOND_ARP_TARGETS_ALL`, 1).
    All,
    /// Any other number.
    Other(u32),
}

/// The numbers (`include/net/bonding.h`), variants and `Display` output. Texts after `|` are parsed too.
macro_rules! names {
    ($call:ident($($argument:tt)*)) => {
        link_base::by_names! { $call($($argument)*)
            BOND_ARP_TARGETS_ANY = 0, Any, "any" | "0";
            BOND_ARP_TARGETS_ALL = 1, All, "all" | "1";
        }
    };
}

impl NamedNumber for BondArpAllTargets {
    ghost use Rattle.link_bond.specs.contracts.bond.arp_all_targets.BondArpAllTargets.{enum};

    type Number = u32;

    ghost names = { arp_all_targets_names };

    ghost seen = { arp_all_targets_seen };

    fn names() -> &'static [Name] {
        names!(names())
    }

    ghost cases_hold = { (refl, (refl, tt)) };

    ghost other_holds = { λ _. refl };

    ghost no_more = { arp_all_targets_cases };

    ghost well_named = { refl };

    ghost thorough = { of_cases enum _ _ (Prim.search (thorough_fields)) };

    ghost from_number = { λ _ _ same. same };

    ghost to_number = { λ _ _ same. same };
}

/// Returns `Any`.
impl Default for BondArpAllTargets {
    ghost is_default = { λ v. v ≡ value_of arp_all_targets_names 0 };

    fn default() -> Self {
        BondArpAllTargets::Any
    }
}

/// Converts a number to its variant, or to `Other` if the number has no name.
impl From<u32> for BondArpAllTargets {
    ghost from_gives = { λ d v. v ≡ value_of arp_all_targets_names d };

    fn from(number: u32) -> Self {
        names!(of_number(number))
    }
}

/// Converts a variant to its number.
impl From<BondArpAllTargets> for u32 {
    ghost from_gives = { λ v d. d ≡ number_of (arp_all_targets_seen v) };

    fn from(value: BondArpAllTargets) -> u32 {
        names!(number(BondArpAllTargets, value))
    }
}

/// Writes the variant's name, such as `any`, or `unknown-variant (n)` for `Other(n)`.
impl fmt::Display for BondArpAllTargets {
    ghost output = { λ v. Some (displayed arp_all_targets_names (arp_all_targets_seen v)) };

    fn fmt<W: fmt::Write>(&self, f: &mut fmt::Formatter<W>) -> fmt::Result {
        names!(display_unknown(self, f))
    }
}

/// Parses a variant's name, as `Display` writes it, or its number, as one digit.
///
/// # Errors
///
/// `Text` for any other input.
impl FromStr for BondArpAllTargets {
    type Err = DecodeError;

    ghost from_str_gives = { λ text result. ReadsText arp_all_targets_names text result };

    #[tactic(auto, using(std::proofs::lemmas::Fmt::decimal_digit))]
    fn from_str(text: &str) -> Result<Self, DecodeError> {
        names!(parse(text))
    }
}
