//! The state of one side of an LACP link.

use bitflags::{Flag, Flags};
use link_base::names::flag_laws::{FlagSet, KnownBits};
use link_base::rows::label::Name;

/// The state of one side of a link in LACP, the actor or the partner (`LACP_STATE_*`,
/// `include/uapi/linux/if_bonding.h`). Each of the eight bits has a name.
#[derive(Clone, Copy, Debug, PartialEq, Eq)]
pub struct LacpState(u8);

impl LacpState {
    /// This side sends LACPDUs even if the other side sends none (`LACP_STATE_LACP_ACTIVITY`).
    pub const LACP_ACTIVITY: LacpState = LacpState(0x1);

    /// This side times out after 3 seconds without an LACPDU; if unset, after 90 (`LACP_STATE_LACP_TIMEOUT`).
    pub const LACP_TIMEOUT: LacpState = LacpState(0x2);

    /// The link can be aggregated with others (`LACP_STATE_AGGREGATION`).
    pub const AGGREGATION: LacpState = LacpState(0x4);

    /// The link is in the right aggregator (`LACP_STATE_SYNCHRONIZATION`).
    pub const SYNCHRONIZATION: LacpState = LacpState(0x8);

    /// Incoming frames are collected (`LACP_STATE_COLLECTING`).
    pub const COLLECTING: LacpState = LacpState(0x10);

    /// Outgoing frames are distributed to the link (`LACP_STATE_DISTRIBUTING`).
    pub const DISTRIBUTING: LacpState = LacpState(0x20);

    /// Default values are used for the other side, since no LACPDU was received (`LACP_STATE_DEFAULTED`).
    pub const DEFAULTED: LacpState = LacpState(0x40);

    /// The information about the other side has expired (`LACP_STATE_EXPIRED`).
    pub const EXPIRED: LacpState = LacpState(0x80);
}

/// The flags (`include/uapi/linux/if_bonding.h`), the set's constants for them, and their names without `LACP_STATE_`.
macro_rules! flags {
    ($call:ident($($argument:tt)*)) => {
        link_base::by_flags! { $call($($argument)*)
            LACP_STATE_LACP_ACTIVITY = 0x1, LACP_ACTIVITY, "LACP_ACTIVITY";
            LACP_STATE_LACP_TIMEOUT = 0x2, LACP_TIMEOUT, "LACP_TIMEOUT";
            LACP_STATE_AGGREGATION = 0x4, AGGREGATION, "AGGREGATION";
            LACP_STATE_SYNCHRONIZATION = 0x8, SYNCHRONIZATION, "SYNCHRONIZATION";
            LACP_STATE_COLLECTING = 0x10, COLLECTING, "COLLECTING";
            LACP_STATE_DISTRIBUTING = 0x20, DISTRIBUTING, "DISTRIBUTING";
            LACP_STATE_DEFAULTED = 0x40, DEFAULTED, "DEFAULTED";
            LACP_STATE_EXPIRED = 0x80, EXPIRED, "EXPIRED";
        }
    };
}

/// The named flags; together they have every bit.
const FLAGS: [Flag<LacpState>; 8] = flags!(flags(LacpState));

impl Flags for LacpState {
    type Bits = u8;

    ghost use Rattle.std.specs.Prelude.{⊤};
    ghost use Rattle.link_bond.specs.LacpState.{lacp_bits, lacp_flags};

    ghost exact = { ⊤ };

    ghost table = { lacp_flags };

    ghost set_of = { lacp_bits };

    fn flags<'a>() -> &'a [Flag<LacpState>] {
        &FLAGS
    }

    fn bits(&self) -> u8 {
        self.0
    }

    fn from_bits_retain(bits: u8) -> LacpState {
        LacpState(bits)
    }
}

impl FlagSet for LacpState {
    ghost use Rattle.std.specs.Prelude.{refl};
    ghost use Rattle.link_base.specs.Equality.{wrapped, numbers};
    ghost use Rattle.link_bond.specs.LacpState.{lacp_bit_names};

    ghost bit_names = { lacp_bit_names };

    fn names() -> &'static [Name] {
        flags!(names())
    }

    ghost is_exact = { tt };

    ghost equal_by_bits = { λ a b. refl };

    ghost thorough = { wrapped (λ flags. flags.0) (λ bits. record { 0 = bits }) (λ _. refl) numbers };

    ghost copies = { λ _ _ same. same };

    ghost is_copied = { λ _. tt };
}

impl KnownBits for LacpState {
    ghost use Rattle.link_bond.specs.LacpState.{every_lacp_bit};

    ghost every_bit = { every_lacp_bit };
}
