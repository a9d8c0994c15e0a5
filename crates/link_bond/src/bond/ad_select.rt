//! How a bond chooses its active aggregator.

ghost use Rattle.std.specs.Prelude.{refl, ◌≡◌, Some};
ghost use Rattle.link_base.specs.Named.{value_of, number_of, displayed, ReadsText};
ghost use Rattle.link_base.specs.Equality.{of_cases, thorough_fields};
ghost use Rattle.link_bond.specs.Names.{ad_select_names, ad_select_seen, ad_select_cases};

use link_base::rows::label::Name;
use link_base::{DecodeError, NamedNumber};
use std::fmt;
use std::str::FromStr;

/// Which aggregator is chosen as the active one, in mode `Ieee8023Ad` (`BOND_AD_*`, `include/net/bond_3ad.h`).
#[derive(Clone, Copy, Debug, PartialEq, Eq)]
pub enum BondAdSelect {
    /// The one with the highest bandwidth. It is reselected only if all its ports are down or it has no ports
    /// (`BOND_AD_STABLE`, 0).
    Stable,
    /// The one with the highest bandwidth. It is reselected whenever a port or a link changes (`BOND_AD_BANDWIDTH`, 1).
    Bandwidth,
    /// The one with the most ports. It is reselected whenever a port or a link changes (`BOND_AD_COUNT`, 2).
    Count,
    /// The one with the highest sum of priorities (`ActorPortPrio`) of active ports. It is reselected whenever a port
    /// or a link changes (`BOND_AD_PRIO`, 3).
    ActorPortPrio,
    /// Any other number.
    Other(u8),
}

/// The numbers (`include/net/bond_3ad.h`), variants and `Display` output. Texts after `|` are parsed too.
macro_rules! names {
    ($call:ident($($argument:tt)*)) => {
        link_base::by_names! { $call($($argument)*)
            BOND_AD_STABLE = 0, Stable, "stable" | "0";
            BOND_AD_BANDWIDTH = 1, Bandwidth, "bandwidth" | "1";
            BOND_AD_COUNT = 2, Count, "count" | "2";
            BOND_AD_PRIO = 3, ActorPortPrio, "actor_port_prio" | "3";
        }
    };
}

impl NamedNumber for BondAdSelect {
    ghost use Rattle.link_bond.specs.contracts.bond.ad_select.BondAdSelect.{enum};

    type Number = u8;

    ghost names = { ad_select_names };

    ghost seen = { ad_select_seen };

    fn names() -> &'static [Name] {
        names!(names())
    }

    ghost cases_hold = { (refl, (refl, (refl, (refl, tt)))) };

    ghost other_holds = { λ _. refl };

    ghost no_more = { ad_select_cases };

    ghost well_named = { refl };

    ghost thorough = { of_cases enum _ _ (Prim.search (thorough_fields)) };

    ghost from_number = { λ _ _ same. same };

    ghost to_number = { λ _ _ same. same };
}

/// Converts a number to its variant, or to `Other` if the number has no name.
impl From<u8> for BondAdSelect {
    ghost from_gives = { λ d v. v ≡ value_of ad_select_names d };

    fn from(number: u8) -> Self {
        names!(of_number(number))
    }
}

/// Converts a variant to its number.
impl From<BondAdSelect> for u8 {
    ghost from_gives = { λ v d. d ≡ number_of (ad_select_seen v) };

    fn from(value: BondAdSelect) -> u8 {
        names!(number(BondAdSelect, value))
    }
}

/// Writes the variant's name, such as `stable`, or `unknown-variant (n)` for `Other(n)`.
impl fmt::Display for BondAdSelect {
    ghost output = { λ v. Some (displayed ad_select_names (ad_select_seen v)) };

    fn fmt<W: fmt::Write>(&self, f: &mut fmt::Formatter<W>) -> fmt::Result {
        names!(display_unknown(self, f))
    }
}

/// Parses a variant's name, as `Display` writes it, or its number, as one digit.
///
/// # Errors
///
/// `Text` for any other input.
impl FromStr for BondAdSelect {
    type Err = DecodeError;

    ghost from_str_gives = { λ text result. ReadsText ad_select_names text result };

    #[tactic(auto, using(std::proofs::lemmas::Fmt::decimal_digit))]
    fn from_str(text: &str) -> Result<Self, DecodeError> {
        names!(parse(text))
    }
}
