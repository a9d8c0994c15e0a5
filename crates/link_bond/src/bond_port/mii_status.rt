//! The link state of a bond port.

ghost use Rattle.std.specs.Prelude.{refl, ◌≡◌, Some};
ghost use Rattle.link_base.specs.Named.{value_of, number_of, displayed, ReadsText};
ghost use Rattle.link_base.specs.Equality.{of_cases, thorough_fields};
ghost use Rattle.link_bond.specs.Names.{mii_status_names, mii_status_seen, mii_status_cases};

use link_base::rows::label::Name;
use link_base::{DecodeError, NamedNumber};
use std::fmt;
use std::str::FromStr;

/// The link state of a port, as its bond sees it (`BOND_LINK_*`, `include/uapi/linux/if_bonding.h`).
#[derive(Clone, Copy, Debug, PartialEq, Eq)]
pub enum MiiStatus {
    /// The link is up (`BOND_LINK_UP`, 0).
    Up,
    /// The link went down, but `DownDelay` has not elapsed yet (`BOND_LINK_FAIL`, 1).
    GoingDown,
    /// The link is down (`BOND_LINK_DOWN`, 2).
    Down,
    /// The link came up, but `UpDelay` has not elapsed yet (`BOND_LINK_BACK`, 3).
    GoingBack,
    /// Any other number.
    Other(u8),
}

/// The numbers (`include/uapi/linux/if_bonding.h`), variants and `Display` output.
macro_rules! names {
    ($call:ident($($argument:tt)*)) => {
        link_base::by_names! { $call($($argument)*)
            BOND_LINK_UP = 0, Up, "up";
            BOND_LINK_FAIL = 1, GoingDown, "going_down";
            BOND_LINK_DOWN = 2, Down, "down";
            BOND_LINK_BACK = 3, GoingBack, "going_back";
        }
    };
}

impl NamedNumber for MiiStatus {
    ghost use Rattle.link_bond.specs.contracts.bond_port.mii_status.MiiStatus.{enum};

    type Number = u8;

    ghost names = { mii_status_names };

    ghost seen = { mii_status_seen };

    fn names() -> &'static [Name] {
        names!(names())
    }

    ghost cases_hold = { (refl, (refl, (refl, (refl, tt)))) };

    ghost other_holds = { λ _. refl };

    ghost no_more = { mii_status_cases };

    ghost well_named = { refl };

    ghost thorough = { of_cases enum _ _ (Prim.search (thorough_fields)) };

    ghost from_number = { λ _ _ same. same };

    ghost to_number = { λ _ _ same. same };
}

/// Converts a number to its variant, or to `Other` if the number has no name.
impl From<u8> for MiiStatus {
    ghost from_gives = { λ d v. v ≡ value_of mii_status_names d };

    fn from(number: u8) -> Self {
        names!(of_number(number))
    }
}

/// Converts a variant to its number.
impl From<MiiStatus> for u8 {
    ghost from_gives = { λ v d. d ≡ number_of (mii_status_seen v) };

    fn from(value: MiiStatus) -> u8 {
        names!(number(MiiStatus, value))
    }
}

/// Writes the variant's name, such as `up`, or the number in decimal for `Other`.
impl fmt::Display for MiiStatus {
    ghost output = { λ v. Some (displayed mii_status_names (mii_status_seen v)) };

    fn fmt<W: fmt::Write>(&self, f: &mut fmt::Formatter<W>) -> fmt::Result {
        names!(display(self, f))
    }
}

/// Parses a variant's name, as `Display` writes it; ASCII letters are case-insensitive.
///
/// # Errors
///
/// `Text` for any other input.
impl FromStr for MiiStatus {
    type Err = DecodeError;

    ghost from_str_gives = { λ text result. ReadsText mii_status_names text result };

    fn from_str(text: &str) -> Result<Self, DecodeError> {
        names!(parse_any_case(text))
    }
}
