//! How often the LACP partner of a bond is asked to send LACPDUs.

ghost use Rattle.std.specs.Prelude.{refl, ◌≡◌, Some};
ghost use Rattle.link_base.specs.Named.{value_of, number_of, displayed, ReadsText};
ghost use Rattle.link_base.specs.Equality.{of_cases, thorough_fields};
ghost use Rattle.link_bond.specs.Names.{lacp_rate_names, lacp_rate_seen, lacp_rate_cases};

use link_base::rows::label::Name;
use link_base::{DecodeError, NamedNumber};
use std::fmt;
use std::str::FromStr;

/// How often the LACP partner is asked to send LACPDUs, in mode `Ieee8023Ad` (`AD_LACP_*`, `include/net/bond_3ad.h`).
#[derive(Clone, Copy, Debug, PartialEq, Eq)]
pub enum BondLacpRate {
    /// Every 30 seconds (`AD_LACP_SLOW`, 0).
    Slow,
    /// Every second (`AD_LACP_FAST`, 1).
    Fast,
    /// Any other number.
    Other(u8),
}

/// The numbers (`include/net/bond_3ad.h`), variants and `Display` output. Texts after `|` are parsed too.
macro_rules! names {
    ($call:ident($($argument:tt)*)) => {
        link_base::by_names! { $call($($argument)*)
            AD_LACP_SLOW = 0, Slow, "slow" | "0";
            AD_LACP_FAST = 1, Fast, "fast" | "1";
        }
    };
}

impl NamedNumber for BondLacpRate {
    ghost use Rattle.link_bond.specs.contracts.bond.lacp_rate.BondLacpRate.{enum};

    type Number = u8;

    ghost names = { lacp_rate_names };

    ghost seen = { lacp_rate_seen };

    fn names() -> &'static [Name] {
        names!(names())
    }

    ghost cases_hold = { (refl, (refl, tt)) };

    ghost other_holds = { λ _. refl };

    ghost no_more = { lacp_rate_cases };

    ghost well_named = { refl };

    ghost thorough = { of_cases enum _ _ (Prim.search (thorough_fields)) };

    ghost from_number = { λ _ _ same. same };

    ghost to_number = { λ _ _ same. same };
}

/// Converts a number to its variant, or to `Other` if the number has no name.
impl From<u8> for BondLacpRate {
    ghost from_gives = { λ d v. v ≡ value_of lacp_rate_names d };

    fn from(number: u8) -> Self {
        names!(of_number(number))
    }
}

/// Converts a variant to its number.
impl From<BondLacpRate> for u8 {
    ghost from_gives = { λ v d. d ≡ number_of (lacp_rate_seen v) };

    fn from(value: BondLacpRate) -> u8 {
        names!(number(BondLacpRate, value))
    }
}

/// Writes the variant's name, such as `slow`, or the number in decimal for `Other`.
impl fmt::Display for BondLacpRate {
    ghost output = { λ v. Some (displayed lacp_rate_names (lacp_rate_seen v)) };

    fn fmt<W: fmt::Write>(&self, f: &mut fmt::Formatter<W>) -> fmt::Result {
        names!(display(self, f))
    }
}

/// Parses a variant's name, as `Display` writes it, or its number, as one digit.
///
/// # Errors
///
/// `Text` for any other input.
impl FromStr for BondLacpRate {
    type Err = DecodeError;

    ghost from_str_gives = { λ text result. ReadsText lacp_rate_names text result };

    #[tactic(auto, using(std::proofs::lemmas::Fmt::decimal_digit))]
    fn from_str(text: &str) -> Result<Self, DecodeError> {
        names!(parse(text))
    }
}
