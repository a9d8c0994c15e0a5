//! What is to run the spanning tree protocol of a bridge.

ghost use Rattle.std.specs.Prelude.{refl, ◌≡◌, Some};
ghost use Rattle.link_base.specs.Equality.{of_cases, thorough_fields};
ghost use Rattle.link_base.specs.Named.{value_of, number_of, displayed, ReadsText};
ghost use Rattle.link_bridge.specs.Names.{stp_mode_names, stp_mode_seen, stp_mode_cases};

use link_base::rows::label::Name;
use link_base::{DecodeError, NamedNumber};
use std::fmt;
use std::str::FromStr;

/// What is to run the spanning tree protocol of a bridge when it is turned on (`BR_STP_MODE_*`,
/// `include/uapi/linux/if_link.h`).
#[derive(Clone, Copy, Debug, PartialEq, Eq)]
pub enum BridgeStpMode {
    /// A userspace program if the helper `/sbin/bridge-stp` starts one, and the kernel otherwise (`BR_STP_MODE_AUTO`,
    /// 0).
    Auto,
    /// A userspace program; the helper is not called (`BR_STP_MODE_USER`, 1).
    User,
    /// The kernel; the helper is not called (`BR_STP_MODE_KERNEL`, 2).
    Kernel,
    /// Any other number.
    Other(u32),
}

/// The numbers (`include/uapi/linux/if_link.h`), variants and `Display` output.
macro_rules! names {
    ($call:ident($($argument:tt)*)) => {
        link_base::by_names! { $call($($argument)*)
            BR_STP_MODE_AUTO = 0, Auto, "auto";
            BR_STP_MODE_USER = 1, User, "user";
            BR_STP_MODE_KERNEL = 2, Kernel, "kernel";
        }
    };
}

impl NamedNumber for BridgeStpMode {
    ghost use Rattle.link_bridge.specs.contracts.bridge.stp_mode.BridgeStpMode.{enum};

    type Number = u32;

    ghost names = { stp_mode_names };

    ghost seen = { stp_mode_seen };

    fn names() -> &'static [Name] {
        names!(names())
    }

    ghost cases_hold = { (refl, (refl, (refl, tt))) };

    ghost other_holds = { λ _. refl };

    ghost no_more = { stp_mode_cases };

    ghost well_named = { refl };

    ghost thorough = { of_cases enum _ _ (Prim.search (thorough_fields)) };

    ghost from_number = { λ _ _ same. same };

    ghost to_number = { λ _ _ same. same };
}

/// Converts a number to its variant, or to `Other` if the number has no name.
impl From<u32> for BridgeStpMode {
    ghost from_gives = { λ d v. v ≡ value_of stp_mode_names d };

    fn from(number: u32) -> Self {
        names!(of_number(number))
    }
}

/// Converts a variant to its number.
impl From<BridgeStpMode> for u32 {
    ghost from_gives = { λ v d. d ≡ number_of (stp_mode_seen v) };

    fn from(value: BridgeStpMode) -> u32 {
        names!(number(BridgeStpMode, value))
    }
}

/// Writes the variant's name, such as `kernel`, or the number in decimal for `Other`.
impl fmt::Display for BridgeStpMode {
    ghost output = { λ v. Some (displayed stp_mode_names (stp_mode_seen v)) };

    fn fmt<W: fmt::Write>(&self, f: &mut fmt::Formatter<W>) -> fmt::Result {
        names!(display(self, f))
    }
}

/// Parses a variant's name, as `Display` writes it, or any `u32` in decimal, with an optional `+` and optional
/// leading zeros.
///
/// # Errors
///
/// `Text` for any other input.
impl FromStr for BridgeStpMode {
    type Err = DecodeError;

    ghost from_str_gives = { λ text result. ReadsText stp_mode_names text result };

    #[tactic(auto, using(link_base::proofs::Naming::parsed_number, link_base::proofs::Naming::parsed_none))]
    fn from_str(text: &str) -> Result<Self, DecodeError> {
        names!(parse_or_number(text, u32))
    }
}
