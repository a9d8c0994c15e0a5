//! Which bond ports validate the ARP and neighbor messages that they receive.

ghost use Rattle.std.specs.Prelude.{refl, ◌≡◌, Some};
ghost use Rattle.link_base.specs.Named.{value_of, number_of, displayed, ReadsText};
ghost use Rattle.link_base.specs.Equality.{of_cases, thorough_fields};
ghost use Rattle.link_bond.specs.Names.{arp_validate_names, arp_validate_seen, arp_validate_cases};

use link_base::rows::label::Name;
use link_base::{DecodeError, NamedNumber};
use std::fmt;
use std::str::FromStr;

/// Which ports validate received ARP and neighbor messages, and whether other traffic counts as a sign of life
/// (`BOND_ARP_VALIDATE_*` and `BOND_ARP_FILTER*`, `include/net/bonding.h`).
#[derive(Clone, Copy, Debug, PartialEq, Eq)]
pub enum BondArpValidate {
    /// No validation; all traffic counts (`BOND_ARP_VALIDATE_NONE`, 0).
    None,
    /// The active port validates (`BOND_ARP_VALIDATE_ACTIVE`, 1).
    Active,
    /// Backup ports validate (`BOND_ARP_VALIDATE_BACKUP`, 2).
    Backup,
    /// All ports validate (`BOND_ARP_VALIDATE_ALL`, 3).
    All,
    /// No validation; only ARP and neighbor messages count (`BOND_ARP_FILTER`, 4).
    Filter,
    /// As `Filter`, but the active port validates (`BOND_ARP_FILTER_ACTIVE`, 5).
    FilterActive,
    /// As `Filter`, but backup ports validate (`BOND_ARP_FILTER_BACKUP`, 6).
    FilterBackup,
    /// Any other number.
    Other(u32),
}

/// The numbers (`include/net/bonding.h`), variants and `Display` output. Texts after `|` are parsed too.
macro_rules! names {
    ($call:ident($($argument:tt)*)) => {
        link_base::by_names! { $call($($argument)*)
            BOND_ARP_VALIDATE_NONE = 0, None, "none" | "0";
            BOND_ARP_VALIDATE_ACTIVE = 1, Active, "active" | "1";
            BOND_ARP_VALIDATE_BACKUP = 2, Backup, "backup" | "2";
            BOND_ARP_VALIDATE_ALL = 3, All, "all" | "3";
            BOND_ARP_FILTER = 4, Filter, "filter" | "4";
            BOND_ARP_FILTER_ACTIVE = 5, FilterActive, "filter_active" | "5";
            BOND_ARP_FILTER_BACKUP = 6, FilterBackup, "filter_backup" | "6";
        }
    };
}

impl NamedNumber for BondArpValidate {
    ghost use Rattle.link_bond.specs.contracts.bond.arp_validate.BondArpValidate.{enum};

    type Number = u32;

    ghost names = { arp_validate_names };

    ghost seen = { arp_validate_seen };

    fn names() -> &'static [Name] {
        names!(names())
    }

    ghost cases_hold = { (refl, (refl, (refl, (refl, (refl, (refl, (refl, tt))))))) };

    ghost other_holds = { λ _. refl };

    ghost no_more = { arp_validate_cases };

    ghost well_named = { refl };

    ghost thorough = { of_cases enum _ _ (Prim.search (thorough_fields)) };

    ghost from_number = { λ _ _ same. same };

    ghost to_number = { λ _ _ same. same };
}

/// Returns `None`.
impl Default for BondArpValidate {
    ghost is_default = { λ v. v ≡ value_of arp_validate_names 0 };

    fn default() -> Self {
        BondArpValidate::None
    }
}

/// Converts a number to its variant, or to `Other` if the number has no name.
impl From<u32> for BondArpValidate {
    ghost from_gives = { λ d v. v ≡ value_of arp_validate_names d };

    fn from(number: u32) -> Self {
        names!(of_number(number))
    }
}

/// Converts a variant to its number.
impl From<BondArpValidate> for u32 {
    ghost from_gives = { λ v d. d ≡ number_of (arp_validate_seen v) };

    fn from(value: BondArpValidate) -> u32 {
        names!(number(BondArpValidate, value))
    }
}

/// Writes the variant's name, such as `none`, or `unknown-variant (n)` for `Other(n)`.
impl fmt::Display for BondArpValidate {
    ghost output = { λ v. Some (displayed arp_validate_names (arp_validate_seen v)) };

    fn fmt<W: fmt::Write>(&self, f: &mut fmt::Formatter<W>) -> fmt::Result {
        names!(display_unknown(self, f))
    }
}

/// Parses a variant's name, as `Display` writes it, or its number, as one digit.
///
/// # Errors
///
/// `Text` for any other input.
impl FromStr for BondArpValidate {
    type Err = DecodeError;

    ghost from_str_gives = { λ text result. ReadsText arp_validate_names text result };

    #[tactic(auto, using(std::proofs::lemmas::Fmt::decimal_digit))]
    fn from_str(text: &str) -> Result<Self, DecodeError> {
        names!(parse(text))
    }
}
