//! The state of a bond port.

ghost use Rattle.std.specs.Prelude.{refl, ◌≡◌, Some};
ghost use Rattle.link_base.specs.Named.{value_of, number_of, displayed, ReadsText};
ghost use Rattle.link_base.specs.Equality.{of_cases, thorough_fields};
ghost use Rattle.link_bond.specs.Names.{port_state_names, port_state_seen, port_state_cases};

use link_base::rows::label::Name;
use link_base::{DecodeError, NamedNumber};
use std::fmt;
use std::str::FromStr;

/// Whether a port carries the traffic of its bond (`BOND_STATE_*`, `include/uapi/linux/if_bonding.h`).
#[derive(Clone, Copy, Debug, PartialEq, Eq)]
pub enum BondPortState {
    /// The port carries traffic (`BOND_STATE_ACTIVE`, 0).
    Active,
    /// The port is on standby (`BOND_STATE_BACKUP`, 1).
    Backup,
    /// Any other number.
    Other(u8),
}

/// The numbers (`include/uapi/linux/if_bonding.h`), variants and `Display` output.
macro_rules! names {
    ($call:ident($($argument:tt)*)) => {
        link_base::by_names! { $call($($argument)*)
            BOND_STATE_ACTIVE = 0, Active, "active";
            BOND_STATE_BACKUP = 1, Backup, "backup";
        }
    };
}

impl NamedNumber for BondPortState {
    ghost use Rattle.link_bond.specs.contracts.bond_port.port_state.BondPortState.{enum};

    type Number = u8;

    ghost names = { port_state_names };

    ghost seen = { port_state_seen };

    fn names() -> &'static [Name] {
        names!(names())
    }

    ghost cases_hold = { (refl, (refl, tt)) };

    ghost other_holds = { λ _. refl };

    ghost no_more = { port_state_cases };

    ghost well_named = { refl };

    ghost thorough = { of_cases enum _ _ (Prim.search (thorough_fields)) };

    ghost from_number = { λ _ _ same. same };

    ghost to_number = { λ _ _ same. same };
}

/// Converts a number to its variant, or to `Other` if the number has no name.
impl From<u8> for BondPortState {
    ghost from_gives = { λ d v. v ≡ value_of port_state_names d };

    fn from(number: u8) -> Self {
        names!(of_number(number))
    }
}

/// Converts a variant to its number.
impl From<BondPortState> for u8 {
    ghost from_gives = { λ v d. d ≡ number_of (port_state_seen v) };

    fn from(value: BondPortState) -> u8 {
        names!(number(BondPortState, value))
    }
}

/// Writes the variant's name, such as `active`, or the number in decimal for `Other`.
impl fmt::Display for BondPortState {
    ghost output = { λ v. Some (displayed port_state_names (port_state_seen v)) };

    fn fmt<W: fmt::Write>(&self, f: &mut fmt::Formatter<W>) -> fmt::Result {
        names!(display(self, f))
    }
}

/// Parses a variant's name, as `Display` writes it; ASCII letters are case-insensitive.
///
/// # Errors
///
/// `Text` for any other input.
impl FromStr for BondPortState {
    type Err = DecodeError;

    ghost from_str_gives = { λ text result. ReadsText port_state_names text result };

    fn from_str(text: &str) -> Result<Self, DecodeError> {
        names!(parse_any_case(text))
    }
}
