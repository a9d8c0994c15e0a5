//! When the primary port of a bond becomes active again.

ghost use Rattle.std.specs.Prelude.{refl, ◌≡◌, Some};
ghost use Rattle.link_base.specs.Named.{value_of, number_of, displayed, ReadsText};
ghost use Rattle.link_base.specs.Equality.{of_cases, thorough_fields};
ghost use Rattle.link_bond.specs.Names.{primary_reselect_names, primary_reselect_seen, primary_reselect_cases};

use link_base::rows::label::Name;
use link_base::{DecodeError, NamedNumber};
use std::fmt;
use std::str::FromStr;

/// When the primary port becomes the active port again after it has recovered (`BOND_PRI_RESELECT_*`,
/// `include/net/bonding.h`).
#[derive(Clone, Copy, Debug, PartialEq, Eq)]
pub enum BondPrimaryReselect {
    /// As soon as its link is up (`BOND_PRI_RESELECT_ALWAYS`, 0).
    Always,
    /// When its link is up and has a better speed and duplex than the active port's link (`BOND_PRI_RESELECT_BETTER`,
    /// 1).
    Better,
    /// Only if the active port fails (`BOND_PRI_RESELECT_FAILURE`, 2).
    Failure,
    /// Any other number.
    Other(u8),
}

/// The numbers (`include/net/bonding.h`), variants and `Display` output. Texts after `|` are parsed too.
macro_rules! names {
    ($call:ident($($argument:tt)*)) => {
        link_base::by_names! { $call($($argument)*)
            BOND_PRI_RESELECT_ALWAYS = 0, Always, "always" | "0";
            BOND_PRI_RESELECT_BETTER = 1, Better, "better" | "1";
            BOND_PRI_RESELECT_FAILURE = 2, Failure, "failure" | "2";
        }
    };
}

impl NamedNumber for BondPrimaryReselect {
    ghost use Rattle.link_bond.specs.contracts.bond.primary_reselect.BondPrimaryReselect.{enum};

    type Number = u8;

    ghost names = { primary_reselect_names };

    ghost seen = { primary_reselect_seen };

    fn names() -> &'static [Name] {
        names!(names())
    }

    ghost cases_hold = { (refl, (refl, (refl, tt))) };

    ghost other_holds = { λ _. refl };

    ghost no_more = { primary_reselect_cases };

    ghost well_named = { refl };

    ghost thorough = { of_cases enum _ _ (Prim.search (thorough_fields)) };

    ghost from_number = { λ _ _ same. same };

    ghost to_number = { λ _ _ same. same };
}

/// Returns `Always`.
impl Default for BondPrimaryReselect {
    ghost is_default = { λ v. v ≡ value_of primary_reselect_names 0 };

    fn default() -> Self {
        BondPrimaryReselect::Always
    }
}

/// Converts a number to its variant, or to `Other` if the number has no name.
impl From<u8> for BondPrimaryReselect {
    ghost from_gives = { λ d v. v ≡ value_of primary_reselect_names d };

    fn from(number: u8) -> Self {
        names!(of_number(number))
    }
}

/// Converts a variant to its number.
impl From<BondPrimaryReselect> for u8 {
    ghost from_gives = { λ v d. d ≡ number_of (primary_reselect_seen v) };

    fn from(value: BondPrimaryReselect) -> u8 {
        names!(number(BondPrimaryReselect, value))
    }
}

/// Writes the variant's name, such as `always`, or `unknown-variant (n)` for `Other(n)`.
impl fmt::Display for BondPrimaryReselect {
    ghost output = { λ v. Some (displayed primary_reselect_names (primary_reselect_seen v)) };

    fn fmt<W: fmt::Write>(&self, f: &mut fmt::Formatter<W>) -> fmt::Result {
        names!(display_unknown(self, f))
    }
}

/// Parses a variant's name, as `Display` writes it, or its number, as one digit.
///
/// # Errors
///
/// `Text` for any other input.
impl FromStr for BondPrimaryReselect {
    type Err = DecodeError;

    ghost from_str_gives = { λ text result. ReadsText primary_reselect_names text result };

    #[tactic(auto, using(std::proofs::lemmas::Fmt::decimal_digit))]
    fn from_str(text: &str) -> Result<Self, DecodeError> {
        names!(parse(text))
    }
}
