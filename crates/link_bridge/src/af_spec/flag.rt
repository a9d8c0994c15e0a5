//! Whose bridge port settings a message sets or reports.

ghost use Rattle.std.specs.Prelude.{refl, ◌≡◌, Some};
ghost use Rattle.link_base.specs.Equality.{of_cases, thorough_fields};
ghost use Rattle.link_base.specs.Named.{value_of, number_of, displayed, ReadsText};
ghost use Rattle.link_bridge.specs.Names.{flag_names, flag_seen, flag_cases};

use link_base::rows::label::Name;
use link_base::{DecodeError, NamedNumber};
use std::fmt;
use std::str::FromStr;

/// Whose bridge port settings a message sets or reports: those of the bridge, or those of the port's device
/// (`BRIDGE_FLAGS_*`, `include/uapi/linux/if_bridge.h`). The kernel treats the numbers as bits: both together are
/// `Other(3)`.
#[derive(Clone, Copy, Debug, PartialEq, Eq)]
pub enum BridgeFlag {
    /// The settings of the bridge (`BRIDGE_FLAGS_MASTER`, 1).
    Controller,
    /// The settings of the device (`BRIDGE_FLAGS_SELF`, 2).
    LowerDev,
    /// Any other number.
    Other(u16),
}

impl BridgeFlag {
    /// Length of a flag as a payload, in bytes.
    pub const LENGTH: usize = 2;
}

/// The numbers (`include/uapi/linux/if_bridge.h`), variants and `Display` output.
macro_rules! names {
    ($call:ident($($argument:tt)*)) => {
        link_base::by_names! { $call($($argument)*)
            BRIDGE_FLAGS_MASTER = 1, Controller, "master";
            BRIDGE_FLAGS_SELF = 2, LowerDev, "self";
        }
    };
}

impl NamedNumber for BridgeFlag {
    ghost use Rattle.link_bridge.specs.contracts.af_spec.flag.BridgeFlag.{enum};

    type Number = u16;

    ghost names = { flag_names };

    ghost seen = { flag_seen };

    fn names() -> &'static [Name] {
        names!(names())
    }

    ghost cases_hold = { (refl, (refl, tt)) };

    ghost other_holds = { λ _. refl };

    ghost no_more = { flag_cases };

    ghost well_named = { refl };

    ghost thorough = { of_cases enum _ _ (Prim.search (thorough_fields)) };

    ghost from_number = { λ _ _ same. same };

    ghost to_number = { λ _ _ same. same };
}

/// Converts a number to its variant, or to `Other` if the number has no name.
impl From<u16> for BridgeFlag {
    ghost from_gives = { λ d v. v ≡ value_of flag_names d };

    fn from(number: u16) -> Self {
        names!(of_number(number))
    }
}

/// Converts a variant to its number.
impl From<BridgeFlag> for u16 {
    ghost from_gives = { λ v d. d ≡ number_of (flag_seen v) };

    fn from(value: BridgeFlag) -> u16 {
        names!(number(BridgeFlag, value))
    }
}

/// Writes the variant's name, such as `master`, or the number in decimal for `Other`.
impl fmt::Display for BridgeFlag {
    ghost output = { λ v. Some (displayed flag_names (flag_seen v)) };

    fn fmt<W: fmt::Write>(&self, f: &mut fmt::Formatter<W>) -> fmt::Result {
        names!(display(self, f))
    }
}

/// Parses a variant's name, as `Display` writes it, or any `u16` in decimal, with an optional `+` and optional
/// leading zeros.
///
/// # Errors
///
/// `Text` for any other input.
impl FromStr for BridgeFlag {
    type Err = DecodeError;

    ghost from_str_gives = { λ text result. ReadsText flag_names text result };

    #[tactic(auto, using(link_base::proofs::Naming::parsed_number, link_base::proofs::Naming::parsed_none))]
    fn from_str(text: &str) -> Result<Self, DecodeError> {
        names!(parse_or_number(text, u16))
    }
}
