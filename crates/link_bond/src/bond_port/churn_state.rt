//! Whether a bond port and its LACP partner reach synchronization.

ghost use Rattle.std.specs.Prelude.{refl, ◌≡◌, Some};
ghost use Rattle.link_base.specs.Named.{value_of, number_of, displayed, ReadsText};
ghost use Rattle.link_base.specs.Equality.{of_cases, thorough_fields};
ghost use Rattle.link_bond.specs.Names.{churn_state_names, churn_state_seen, churn_state_cases};

use link_base::rows::label::Name;
use link_base::{DecodeError, NamedNumber};
use std::fmt;
use std::str::FromStr;

/// Whether one side of a link, the LACP actor or the partner, reaches synchronization in time, according to the churn
/// detection of IEEE 802.3ad (`churn_state_t`, `include/net/bond_3ad.h`).
#[derive(Clone, Copy, Debug, PartialEq, Eq)]
pub enum ChurnState {
    /// Being monitored: the time limit has not expired (`AD_CHURN_MONITOR`, 0).
    Monitor,
    /// Not synchronized, and the time limit has expired (`AD_CHURN`, 1).
    Churn,
    /// Synchronized (`AD_NO_CHURN`, 2).
    NoChurn,
    /// Any other number.
    Other(u8),
}

/// The numbers (`include/net/bond_3ad.h`), variants and `Display` output.
macro_rules! names {
    ($call:ident($($argument:tt)*)) => {
        link_base::by_names! { $call($($argument)*)
            AD_CHURN_MONITOR = 0, Monitor, "monitor";
            AD_CHURN = 1, Churn, "churn";
            AD_NO_CHURN = 2, NoChurn, "no_churn";
        }
    };
}

impl NamedNumber for ChurnState {
    ghost use Rattle.link_bond.specs.contracts.bond_port.churn_state.ChurnState.{enum};

    type Number = u8;

    ghost names = { churn_state_names };

    ghost seen = { churn_state_seen };

    fn names() -> &'static [Name] {
        names!(names())
    }

    ghost cases_hold = { (refl, (refl, (refl, tt))) };

    ghost other_holds = { λ _. refl };

    ghost no_more = { churn_state_cases };

    ghost well_named = { refl };

    ghost thorough = { of_cases enum _ _ (Prim.search (thorough_fields)) };

    ghost from_number = { λ _ _ same. same };

    ghost to_number = { λ _ _ same. same };
}

/// Converts a number to its variant, or to `Other` if the number has no name.
impl From<u8> for ChurnState {
    ghost from_gives = { λ d v. v ≡ value_of churn_state_names d };

    fn from(number: u8) -> Self {
        names!(of_number(number))
    }
}

/// Converts a variant to its number.
impl From<ChurnState> for u8 {
    ghost from_gives = { λ v d. d ≡ number_of (churn_state_seen v) };

    fn from(value: ChurnState) -> u8 {
        names!(number(ChurnState, value))
    }
}

/// Writes the variant's name, such as `monitor`, or the number in decimal for `Other`.
impl fmt::Display for ChurnState {
    ghost output = { λ v. Some (displayed churn_state_names (churn_state_seen v)) };

    fn fmt<W: fmt::Write>(&self, f: &mut fmt::Formatter<W>) -> fmt::Result {
        names!(display(self, f))
    }
}

/// Parses a variant's name, as `Display` writes it; ASCII letters are case-insensitive.
///
/// # Errors
///
/// `Text` for any other input.
impl FromStr for ChurnState {
    type Err = DecodeError;

    ghost from_str_gives = { λ text result. ReadsText churn_state_names text result };

    fn from_str(text: &str) -> Result<Self, DecodeError> {
        names!(parse_any_case(text))
    }
}
