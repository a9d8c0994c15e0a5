//! What happens to frames received on inactive ports of a bond.

ghost use Rattle.std.specs.Prelude.{refl, ◌≡◌, Some};
ghost use Rattle.link_base.specs.Named.{value_of, number_of, displayed, ReadsText};
ghost use Rattle.link_base.specs.Equality.{of_cases, thorough_fields};
ghost use Rattle.link_bond.specs.Names.{all_port_active_names, all_port_active_seen, all_port_active_cases};

use link_base::rows::label::Name;
use link_base::{DecodeError, NamedNumber};
use std::fmt;
use std::str::FromStr;

/// What happens to duplicate frames, those received on an inactive port (`IFLA_BOND_ALL_SLAVES_ACTIVE`,
/// `include/uapi/linux/if_link.h`).
#[derive(Clone, Copy, Debug, PartialEq, Eq)]
pub enum BondAllPortActive {
    /// Dropped (0).
    Dropped,
    /// Delivered (1).
    Delivered,
    /// Any other number.
    Other(u8),
}

/// The numbers, for which the kernel has no names, variants and `Display` output. Texts after `|` are parsed too.
macro_rules! names {
    ($call:ident($($argument:tt)*)) => {
        link_base::by_names! { $call($($argument)*)
            DROPPED = 0, Dropped, "dropped" | "0";
            DELIVERED = 1, Delivered, "delivered" | "1";
        }
    };
}

impl NamedNumber for BondAllPortActive {
    ghost use Rattle.link_bond.specs.contracts.bond.all_port_active.BondAllPortActive.{enum};

    type Number = u8;

    ghost names = { all_port_active_names };

    ghost seen = { all_port_active_seen };

    fn names() -> &'static [Name] {
        names!(names())
    }

    ghost cases_hold = { (refl, (refl, tt)) };

    ghost other_holds = { λ _. refl };

    ghost no_more = { all_port_active_cases };

    ghost well_named = { refl };

    ghost thorough = { of_cases enum _ _ (Prim.search (thorough_fields)) };

    ghost from_number = { λ _ _ same. same };

    ghost to_number = { λ _ _ same. same };
}

/// Converts a number to its variant, or to `Other` if the number has no name.
impl From<u8> for BondAllPortActive {
    ghost from_gives = { λ d v. v ≡ value_of all_port_active_names d };

    fn from(number: u8) -> Self {
        names!(of_number(number))
    }
}

/// Converts a variant to its number.
impl From<BondAllPortActive> for u8 {
    ghost from_gives = { λ v d. d ≡ number_of (all_port_active_seen v) };

    fn from(value: BondAllPortActive) -> u8 {
        names!(number(BondAllPortActive, value))
    }
}

/// Writes the variant's name, such as `dropped`, or the number in decimal for `Other`.
impl fmt::Display for BondAllPortActive {
    ghost output = { λ v. Some (displayed all_port_active_names (all_port_active_seen v)) };

    fn fmt<W: fmt::Write>(&self, f: &mut fmt::Formatter<W>) -> fmt::Result {
        names!(display(self, f))
    }
}

/// Parses a variant's name, as `Display` writes it, or its number, as one digit.
///
/// # Errors
///
/// `Text` for any other input.
impl FromStr for BondAllPortActive {
    type Err = DecodeError;

    ghost from_str_gives = { λ text result. ReadsText all_port_active_names text result };

    #[tactic(auto, using(std::proofs::lemmas::Fmt::decimal_digit))]
    fn from_str(text: &str) -> Result<Self, DecodeError> {
        names!(parse(text))
    }
}
