//! Theorems about the bits of the named flags. The functions have empty bodies.

ghost use Rattle.std.specs.Prelude.{◌≡◌};
ghost use Rattle.link_bond.specs.LacpState.{lacp_bits};

use crate::bond_port::LacpState;

/// Proves which bits the LACP state flags have (`LACP_STATE_*`, `include/uapi/linux/if_bonding.h`).
pub fn lacp_state_bits()
    ensures lacp_activity { lacp_bits LacpState.LACP_ACTIVITY ≡ 0x1 }
    ensures lacp_timeout { lacp_bits LacpState.LACP_TIMEOUT ≡ 0x2 }
    ensures aggregation { lacp_bits LacpState.AGGREGATION ≡ 0x4 }
    ensures synchronization { lacp_bits LacpState.SYNCHRONIZATION ≡ 0x8 }
    ensures collecting { lacp_bits LacpState.COLLECTING ≡ 0x10 }
    ensures distributing { lacp_bits LacpState.DISTRIBUTING ≡ 0x20 }
    ensures defaulted { lacp_bits LacpState.DEFAULTED ≡ 0x40 }
    ensures expired { lacp_bits LacpState.EXPIRED ≡ 0x80 }
{}
