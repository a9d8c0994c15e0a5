//! Which hardware addresses the ports of a bond have.

ghost use Rattle.std.specs.Prelude.{refl, ◌≡◌, Some};
ghost use Rattle.link_base.specs.Named.{value_of, number_of, displayed, ReadsText};
ghost use Rattle.link_base.specs.Equality.{of_cases, thorough_fields};
ghost use Rattle.link_bond.specs.Names.{fail_over_mac_names, fail_over_mac_seen, fail_over_mac_cases};

use link_base::rows::label::Name;
use link_base::{DecodeError, NamedNumber};
use std::fmt;
use std::str::FromStr;

/// Which hardware addresses the bond and its ports have, in mode `ActiveBackup` (`BOND_FOM_*`,
/// `include/net/bonding.h`).
#[derive(Clone, Copy, Debug, PartialEq, Eq)]
pub enum BondFailOverMac {
    /// All ports have the bond's address (`BOND_FOM_NONE`, 0).
    None,
    /// Ports keep their own addresses, and the bond has the address of the active port (`BOND_FOM_ACTIVE`, 1).
    Active,
    /// A port gets the bond's address when it becomes active (`BOND_FOM_FOLLOW`, 2).
    Follow,
    /// Any other number.
    Other(u8),
}

/// The numbers (`include/net/bonding.h`), variants and `Display` output. Texts after `|` are parsed too.
macro_rules! names {
    ($call:ident($($argument:tt)*)) => {
        link_base::by_names! { $call($($argument)*)
            BOND_FOM_NONE = 0, None, "none" | "0";
            BOND_FOM_ACTIVE = 1, Active, "active" | "1";
            BOND_FOM_FOLLOW = 2, Follow, "follow" | "2";
        }
    };
}

impl NamedNumber for BondFailOverMac {
    ghost use Rattle.link_bond.specs.contracts.bond.fail_over_mac.BondFailOverMac.{enum};

    type Number = u8;

    ghost names = { fail_over_mac_names };

    ghost seen = { fail_over_mac_seen };

    fn names() -> &'static [Name] {
        names!(names())
    }

    ghost cases_hold = { (refl, (refl, (refl, tt))) };

    ghost other_holds = { λ _. refl };

    ghost no_more = { fail_over_mac_cases };

    ghost well_named = { refl };

    ghost thorough = { of_cases enum _ _ (Prim.search (thorough_fields)) };

    ghost from_number = { λ _ _ same. same };

    ghost to_number = { λ _ _ same. same };
}

/// Returns `None`.
impl Default for BondFailOverMac {
    ghost is_default = { λ v. v ≡ value_of fail_over_mac_names 0 };

    fn default() -> Self {
        BondFailOverMac::None
    }
}

/// Converts a number to its variant, or to `Other` if the number has no name.
impl From<u8> for BondFailOverMac {
    ghost from_gives = { λ d v. v ≡ value_of fail_over_mac_names d };

    fn from(number: u8) -> Self {
        names!(of_number(number))
    }
}

/// Converts a variant to its number.
impl From<BondFailOverMac> for u8 {
    ghost from_gives = { λ v d. d ≡ number_of (fail_over_mac_seen v) };

    fn from(value: BondFailOverMac) -> u8 {
        names!(number(BondFailOverMac, value))
    }
}

/// Writes the variant's name, such as `none`, or `unknown-variant (n)` for `Other(n)`.
impl fmt::Display for BondFailOverMac {
    ghost output = { λ v. Some (displayed fail_over_mac_names (fail_over_mac_seen v)) };

    fn fmt<W: fmt::Write>(&self, f: &mut fmt::Formatter<W>) -> fmt::Result {
        names!(display_unknown(self, f))
    }
}

/// Parses a variant's name, as `Display` writes it, or its number, as one digit.
///
/// # Errors
///
/// `Text` for any other input.
impl FromStr for BondFailOverMac {
    type Err = DecodeError;

    ghost from_str_gives = { λ text result. ReadsText fail_over_mac_names text result };

    #[tactic(auto, using(std::proofs::lemmas::Fmt::decimal_digit))]
    fn from_str(text: &str) -> Result<Self, DecodeError> {
        names!(parse(text))
    }
}
