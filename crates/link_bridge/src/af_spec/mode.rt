//! How a device with hardware bridging handles frames between its own ports.

ghost use Rattle.std.specs.Prelude.{refl, ◌≡◌, Some};
ghost use Rattle.link_base.specs.Equality.{of_cases, thorough_fields};
ghost use Rattle.link_base.specs.Named.{value_of, number_of, displayed, ReadsText};
ghost use Rattle.link_bridge.specs.Names.{mode_names, mode_seen, mode_cases};

use link_base::rows::label::Name;
use link_base::{DecodeError, NamedNumber};
use std::fmt;
use std::str::FromStr;

/// How a device with hardware bridging handles frames between its own ports, according to IEEE 802.1Qbg
/// (`BRIDGE_MODE_*`, `include/uapi/linux/if_bridge.h`). `BRIDGE_MODE_UNDEF` is `Other(65535)`.
#[derive(Clone, Copy, Debug, PartialEq, Eq)]
pub enum BridgeMode {
    /// It forwards them itself, as a virtual Ethernet bridge (`BRIDGE_MODE_VEB`, 0).
    Veb,
    /// It sends them to the adjacent switch, as a virtual Ethernet port aggregator (`BRIDGE_MODE_VEPA`, 1).
    Vepa,
    /// Any other number.
    Other(u16),
}

impl BridgeMode {
    /// Length of a mode as a payload, in bytes.
    pub const LENGTH: usize = 2;
}

/// The numbers (`include/uapi/linux/if_bridge.h`), variants and `Display` output.
macro_rules! names {
    ($call:ident($($argument:tt)*)) => {
        link_base::by_names! { $call($($argument)*)
            BRIDGE_MODE_VEB = 0, Veb, "veb";
            BRIDGE_MODE_VEPA = 1, Vepa, "vepa";
        }
    };
}

impl NamedNumber for BridgeMode {
    ghost use Rattle.link_bridge.specs.contracts.af_spec.mode.BridgeMode.{enum};

    type Number = u16;

    ghost names = { mode_names };

    ghost seen = { mode_seen };

    fn names() -> &'static [Name] {
        names!(names())
    }

    ghost cases_hold = { (refl, (refl, tt)) };

    ghost other_holds = { λ _. refl };

    ghost no_more = { mode_cases };

    ghost well_named = { refl };

    ghost thorough = { of_cases enum _ _ (Prim.search (thorough_fields)) };

    ghost from_number = { λ _ _ same. same };

    ghost to_number = { λ _ _ same. same };
}

/// Converts a number to its variant, or to `Other` if the number has no name.
impl From<u16> for BridgeMode {
    ghost from_gives = { λ d v. v ≡ value_of mode_names d };

    fn from(number: u16) -> Self {
        names!(of_number(number))
    }
}

/// Converts a variant to its number.
impl From<BridgeMode> for u16 {
    ghost from_gives = { λ v d. d ≡ number_of (mode_seen v) };

    fn from(value: BridgeMode) -> u16 {
        names!(number(BridgeMode, value))
    }
}

/// Writes the variant's name, such as `vepa`, or the number in decimal for `Other`.
impl fmt::Display for BridgeMode {
    ghost output = { λ v. Some (displayed mode_names (mode_seen v)) };

    fn fmt<W: fmt::Write>(&self, f: &mut fmt::Formatter<W>) -> fmt::Result {
        names!(display(self, f))
    }
}

/// Parses a variant's name, as `Display` writes it, or any `u16` in decimal, with an optional `+` and optional
/// leading zeros.
///
/// # Errors
///
/// `Text` for any other input.
impl FromStr for BridgeMode {
    type Err = DecodeError;

    ghost from_str_gives = { λ text result. ReadsText mode_names text result };

    #[tactic(auto, using(link_base::proofs::Naming::parsed_number, link_base::proofs::Naming::parsed_none))]
    fn from_str(text: &str) -> Result<Self, DecodeError> {
        names!(parse_or_number(text, u16))
    }
}
