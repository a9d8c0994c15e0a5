//! What runs the spanning tree protocol of a bridge.

ghost use Rattle.std.specs.Prelude.{refl, ◌≡◌, Some};
ghost use Rattle.link_base.specs.Equality.{of_cases, thorough_fields};
ghost use Rattle.link_base.specs.Named.{value_of, number_of, displayed, ReadsText};
ghost use Rattle.link_bridge.specs.Names.{stp_state_names, stp_state_seen, stp_state_cases};

use link_base::rows::label::Name;
use link_base::{DecodeError, NamedNumber};
use std::fmt;
use std::str::FromStr;

/// What runs the spanning tree protocol of a bridge (`BR_NO_STP`, `BR_KERNEL_STP` and `BR_USER_STP`,
/// `net/bridge/br_private.h`).
#[derive(Clone, Copy, Debug, PartialEq, Eq)]
pub enum BridgeStpState {
    /// Nothing: the protocol is off (`BR_NO_STP`, 0).
    Disabled,
    /// The kernel (`BR_KERNEL_STP`, 1).
    KernelStp,
    /// A userspace program (`BR_USER_STP`, 2).
    UserStp,
    /// Any other number.
    Other(u32),
}

/// The numbers (`net/bridge/br_private.h`), variants and `Display` output.
macro_rules! names {
    ($call:ident($($argument:tt)*)) => {
        link_base::by_names! { $call($($argument)*)
            BR_NO_STP = 0, Disabled, "no";
            BR_KERNEL_STP = 1, KernelStp, "kernel_stp";
            BR_USER_STP = 2, UserStp, "user_stp";
        }
    };
}

impl NamedNumber for BridgeStpState {
    ghost use Rattle.link_bridge.specs.contracts.bridge.stp_state.BridgeStpState.{enum};

    type Number = u32;

    ghost names = { stp_state_names };

    ghost seen = { stp_state_seen };

    fn names() -> &'static [Name] {
        names!(names())
    }

    ghost cases_hold = { (refl, (refl, (refl, tt))) };

    ghost other_holds = { λ _. refl };

    ghost no_more = { stp_state_cases };

    ghost well_named = { refl };

    ghost thorough = { of_cases enum _ _ (Prim.search (thorough_fields)) };

    ghost from_number = { λ _ _ same. same };

    ghost to_number = { λ _ _ same. same };
}

/// Converts a number to its variant, or to `Other` if the number has no name.
impl From<u32> for BridgeStpState {
    ghost from_gives = { λ d v. v ≡ value_of stp_state_names d };

    fn from(number: u32) -> Self {
        names!(of_number(number))
    }
}

/// Converts a variant to its number.
impl From<BridgeStpState> for u32 {
    ghost from_gives = { λ v d. d ≡ number_of (stp_state_seen v) };

    fn from(value: BridgeStpState) -> u32 {
        names!(number(BridgeStpState, value))
    }
}

/// Writes the variant's name, such as `kernel_stp`, or the number in decimal for `Other`.
impl fmt::Display for BridgeStpState {
    ghost output = { λ v. Some (displayed stp_state_names (stp_state_seen v)) };

    fn fmt<W: fmt::Write>(&self, f: &mut fmt::Formatter<W>) -> fmt::Result {
        names!(display(self, f))
    }
}

/// Parses a variant's name, as `Display` writes it, or any `u32` in decimal, with an optional `+` and optional
/// leading zeros.
///
/// # Errors
///
/// `Text` for any other input.
impl FromStr for BridgeStpState {
    type Err = DecodeError;

    ghost from_str_gives = { λ text result. ReadsText stp_state_names text result };

    #[tactic(auto, using(link_base::proofs::Naming::parsed_number, link_base::proofs::Naming::parsed_none))]
    fn from_str(text: &str) -> Result<Self, DecodeError> {
        names!(parse_or_number(text, u32))
    }
}
