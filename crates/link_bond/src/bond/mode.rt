//! The modes of a bond.

ghost use Rattle.std.specs.Prelude.{refl, ◌≡◌, Some};
ghost use Rattle.link_base.specs.Named.{value_of, number_of, displayed, ReadsText};
ghost use Rattle.link_base.specs.Equality.{of_cases, thorough_fields};
ghost use Rattle.link_bond.specs.Names.{mode_names, mode_seen, mode_cases};

use link_base::rows::label::Name;
use link_base::{DecodeError, NamedNumber};
use std::fmt;
use std::str::FromStr;

/// How a bond distributes traffic over its ports (`BOND_MODE_*`, `include/uapi/linux/if_bonding.h`).
#[derive(Clone, Copy, Debug, PartialEq, Eq)]
pub enum BondMode {
    /// Packets are sent from the ports in turn: round-robin (`BOND_MODE_ROUNDROBIN`, 0).
    BalanceRr,
    /// One port carries all traffic; if it fails, another takes over (`BOND_MODE_ACTIVEBACKUP`, 1).
    ActiveBackup,
    /// A hash of the packet selects the port (`BOND_MODE_XOR`, 2).
    BalanceXor,
    /// Every packet is sent from every port (`BOND_MODE_BROADCAST`, 3).
    Broadcast,
    /// Ports are aggregated as negotiated with the LACP partner, by IEEE 802.3ad (`BOND_MODE_8023AD`, 4).
    Ieee8023Ad,
    /// Transmitted traffic is distributed over the ports according to load; one port receives (`BOND_MODE_TLB`, 5).
    BalanceTlb,
    /// As `BalanceTlb`, but received IPv4 traffic is distributed too, through ARP replies (`BOND_MODE_ALB`, 6).
    BalanceAlb,
    /// Any other number.
    Other(u8),
}

/// The numbers (`include/uapi/linux/if_bonding.h`), variants and `Display` output. Texts after `|` are parsed too.
macro_rules! names {
    ($call:ident($($argument:tt)*)) => {
        link_base::by_names! { $call($($argument)*)
            BOND_MODE_ROUNDROBIN = 0, BalanceRr, "balance-rr" | "0";
            BOND_MODE_ACTIVEBACKUP = 1, ActiveBackup, "active-backup" | "1";
            BOND_MODE_XOR = 2, BalanceXor, "balance-xor" | "2";
            BOND_MODE_BROADCAST = 3, Broadcast, "broadcast" | "3";
            BOND_MODE_8023AD = 4, Ieee8023Ad, "802.3ad" | "4";
            BOND_MODE_TLB = 5, BalanceTlb, "balance-tlb" | "5";
            BOND_MODE_ALB = 6, BalanceAlb, "balance-alb" | "6";
        }
    };
}

impl NamedNumber for BondMode {
    ghost use Rattle.link_bond.specs.contracts.bond.mode.BondMode.{enum};

    type Number = u8;

    ghost names = { mode_names };

    ghost seen = { mode_seen };

    fn names() -> &'static [Name] {
        names!(names())
    }

    ghost cases_hold = { (refl, (refl, (refl, (refl, (refl, (refl, (refl, tt))))))) };

    ghost other_holds = { λ _. refl };

    ghost no_more = { mode_cases };

    ghost well_named = { refl };

    ghost thorough = { of_cases enum _ _ (Prim.search (thorough_fields)) };

    ghost from_number = { λ _ _ same. same };

    ghost to_number = { λ _ _ same. same };
}

/// Returns `BalanceRr`.
impl Default for BondMode {
    ghost is_default = { λ v. v ≡ value_of mode_names 0 };

    fn default() -> Self {
        BondMode::BalanceRr
    }
}

/// Converts a number to its variant, or to `Other` if the number has no name.
impl From<u8> for BondMode {
    ghost from_gives = { λ d v. v ≡ value_of mode_names d };

    fn from(number: u8) -> Self {
        names!(of_number(number))
    }
}

/// Converts a variant to its number.
impl From<BondMode> for u8 {
    ghost from_gives = { λ v d. d ≡ number_of (mode_seen v) };

    fn from(value: BondMode) -> u8 {
        names!(number(BondMode, value))
    }
}

/// Writes the variant's name, such as `balance-rr`, or `unknown-variant (n)` for `Other(n)`.
impl fmt::Display for BondMode {
    ghost output = { λ v. Some (displayed mode_names (mode_seen v)) };

    fn fmt<W: fmt::Write>(&self, f: &mut fmt::Formatter<W>) -> fmt::Result {
        names!(display_unknown(self, f))
    }
}

/// Parses a variant's name, as `Display` writes it, or its number, as one digit.
///
/// # Errors
///
/// `Text` for any other input.
impl FromStr for BondMode {
    type Err = DecodeError;

    ghost from_str_gives = { λ text result. ReadsText mode_names text result };

    #[tactic(auto, using(std::proofs::lemmas::Fmt::decimal_digit))]
    fn from_str(text: &str) -> Result<Self, DecodeError> {
        names!(parse(text))
    }
}
