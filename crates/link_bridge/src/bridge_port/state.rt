//! The state of a bridge port in the spanning tree protocol.

ghost use Rattle.std.specs.Prelude.{refl, ◌≡◌, Some};
ghost use Rattle.link_base.specs.Equality.{of_cases, thorough_fields};
ghost use Rattle.link_base.specs.Named.{value_of, number_of, displayed, ReadsText};
ghost use Rattle.link_bridge.specs.Names.{port_state_names, port_state_seen, port_state_cases};

use link_base::rows::label::Name;
use link_base::{DecodeError, NamedNumber};
use std::fmt;
use std::str::FromStr;

/// The state of a bridge port in the spanning tree protocol (`BR_STATE_*`, `include/uapi/linux/if_bridge.h`).
#[derive(Clone, Copy, Debug, PartialEq, Eq)]
pub enum BridgePortState {
    /// The port does not participate in the protocol and forwards nothing (`BR_STATE_DISABLED`, 0).
    Disabled,
    /// The port participates in the protocol; it does not learn or forward yet (`BR_STATE_LISTENING`, 1).
    Listening,
    /// The port learns addresses and does not forward yet (`BR_STATE_LEARNING`, 2).
    Learning,
    /// The port learns and forwards (`BR_STATE_FORWARDING`, 3).
    Forwarding,
    /// The port is kept out of the tree: it receives BPDUs and forwards nothing (`BR_STATE_BLOCKING`, 4).
    Blocking,
    /// Any other number.
    Other(u8),
}

/// The numbers (`include/uapi/linux/if_bridge.h`), variants and `Display` output.
macro_rules! names {
    ($call:ident($($argument:tt)*)) => {
        link_base::by_names! { $call($($argument)*)
            BR_STATE_DISABLED = 0, Disabled, "disabled";
            BR_STATE_LISTENING = 1, Listening, "listening";
            BR_STATE_LEARNING = 2, Learning, "learning";
            BR_STATE_FORWARDING = 3, Forwarding, "forwarding";
            BR_STATE_BLOCKING = 4, Blocking, "blocking";
        }
    };
}

impl NamedNumber for BridgePortState {
    ghost use Rattle.link_bridge.specs.contracts.bridge_port.state.BridgePortState.{enum};

    type Number = u8;

    ghost names = { port_state_names };

    ghost seen = { port_state_seen };

    fn names() -> &'static [Name] {
        names!(names())
    }

    ghost cases_hold = { (refl, (refl, (refl, (refl, (refl, tt))))) };

    ghost other_holds = { λ _. refl };

    ghost no_more = { port_state_cases };

    ghost well_named = { refl };

    ghost thorough = { of_cases enum _ _ (Prim.search (thorough_fields)) };

    ghost from_number = { λ _ _ same. same };

    ghost to_number = { λ _ _ same. same };
}

/// Converts a number to its variant, or to `Other` if the number has no name.
impl From<u8> for BridgePortState {
    ghost from_gives = { λ d v. v ≡ value_of port_state_names d };

    fn from(number: u8) -> Self {
        names!(of_number(number))
    }
}

/// Converts a variant to its number.
impl From<BridgePortState> for u8 {
    ghost from_gives = { λ v d. d ≡ number_of (port_state_seen v) };

    fn from(value: BridgePortState) -> u8 {
        names!(number(BridgePortState, value))
    }
}

/// Writes the variant's name, such as `forwarding`, or the number in decimal for `Other`.
impl fmt::Display for BridgePortState {
    ghost output = { λ v. Some (displayed port_state_names (port_state_seen v)) };

    fn fmt<W: fmt::Write>(&self, f: &mut fmt::Formatter<W>) -> fmt::Result {
        names!(display(self, f))
    }
}

/// Parses a variant's name, as `Display` writes it, or any `u8` in decimal, with an optional `+` and optional
/// leading zeros.
///
/// # Errors
///
/// `Text` for any other input.
impl FromStr for BridgePortState {
    type Err = DecodeError;

    ghost from_str_gives = { λ text result. ReadsText port_state_names text result };

    #[tactic(auto, using(link_base::proofs::Naming::parsed_number, link_base::proofs::Naming::parsed_none))]
    fn from_str(text: &str) -> Result<Self, DecodeError> {
        names!(parse_or_number(text, u8))
    }
}
