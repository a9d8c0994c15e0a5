//! Whether a port is considered to lead to a multicast router.

ghost use Rattle.std.specs.Prelude.{refl, ◌≡◌, Some};
ghost use Rattle.link_base.specs.Equality.{of_cases, thorough_fields};
ghost use Rattle.link_base.specs.Named.{value_of, number_of, displayed, ReadsText};
ghost use Rattle.link_bridge.specs.Names.{router_type_names, router_type_seen, router_type_cases};

use link_base::rows::label::Name;
use link_base::{DecodeError, NamedNumber};
use std::fmt;
use std::str::FromStr;

/// Whether a port is considered to lead to a multicast router, or the bridge itself to be one, and gets all multicast
/// traffic (`MDB_RTR_TYPE_*`, `include/uapi/linux/if_bridge.h`).
#[derive(Clone, Copy, Debug, PartialEq, Eq)]
pub enum BridgeMulticastRouterType {
    /// Never (`MDB_RTR_TYPE_DISABLED`, 0).
    Disabled,
    /// For some time after each query from a router (`MDB_RTR_TYPE_TEMP_QUERY`, 1).
    TempQuery,
    /// Always (`MDB_RTR_TYPE_PERM`, 2).
    Permanent,
    /// For some time, which restarts each time this value is set (`MDB_RTR_TYPE_TEMP`, 3).
    Temp,
    /// Any other number.
    Other(u8),
}

impl BridgeMulticastRouterType {
    /// `TempQuery`, under the name that `Display` writes.
    pub const Auto: BridgeMulticastRouterType = BridgeMulticastRouterType::TempQuery;
}

/// The numbers (`include/uapi/linux/if_bridge.h`), variants and `Display` output. Texts after `|` are parsed too.
macro_rules! names {
    ($call:ident($($argument:tt)*)) => {
        link_base::by_names! { $call($($argument)*)
            MDB_RTR_TYPE_DISABLED = 0, Disabled, "disabled";
            MDB_RTR_TYPE_TEMP_QUERY = 1, TempQuery, "auto" | "temp_query";
            MDB_RTR_TYPE_PERM = 2, Permanent, "permanent";
            MDB_RTR_TYPE_TEMP = 3, Temp, "temp";
        }
    };
}

impl NamedNumber for BridgeMulticastRouterType {
    ghost use Rattle.link_bridge.specs.contracts.bridge.router_type.BridgeMulticastRouterType.{enum};

    type Number = u8;

    ghost names = { router_type_names };

    ghost seen = { router_type_seen };

    fn names() -> &'static [Name] {
        names!(names())
    }

    ghost cases_hold = { (refl, (refl, (refl, (refl, tt)))) };

    ghost other_holds = { λ _. refl };

    ghost no_more = { router_type_cases };

    ghost well_named = { refl };

    ghost thorough = { of_cases enum _ _ (Prim.search (thorough_fields)) };

    ghost from_number = { λ _ _ same. same };

    ghost to_number = { λ _ _ same. same };
}

/// Converts a number to its variant, or to `Other` if the number has no name.
impl From<u8> for BridgeMulticastRouterType {
    ghost from_gives = { λ d v. v ≡ value_of router_type_names d };

    fn from(number: u8) -> Self {
        names!(of_number(number))
    }
}

/// Converts a variant to its number.
impl From<BridgeMulticastRouterType> for u8 {
    ghost from_gives = { λ v d. d ≡ number_of (router_type_seen v) };

    fn from(value: BridgeMulticastRouterType) -> u8 {
        names!(number(BridgeMulticastRouterType, value))
    }
}

/// Writes the variant's name, such as `permanent` (`auto` for `TempQuery`), or the number in decimal for `Other`.
impl fmt::Display for BridgeMulticastRouterType {
    ghost output = { λ v. Some (displayed router_type_names (router_type_seen v)) };

    fn fmt<W: fmt::Write>(&self, f: &mut fmt::Formatter<W>) -> fmt::Result {
        names!(display(self, f))
    }
}

/// Parses a variant's name, as `Display` writes it or `temp_query` for `TempQuery`, or any `u8` in decimal, with an
/// optional `+` and optional leading zeros.
///
/// # Errors
///
/// `Text` for any other input.
impl FromStr for BridgeMulticastRouterType {
    type Err = DecodeError;

    ghost from_str_gives = { λ text result. ReadsText router_type_names text result };

    #[tactic(auto, using(link_base::proofs::Naming::parsed_number, link_base::proofs::Naming::parsed_none))]
    fn from_str(text: &str) -> Result<Self, DecodeError> {
        names!(parse_or_number(text, u8))
    }
}
