//! The names of numbers and flags in the attributes of a link.

ghost use Rattle.link_common.specs.LinkNames.{oper_state_names, link_mode_names, link_event_names, ext_mask_names, xdp_attached_names, xdp_flags_names};

use link_base::NumberNames;
use link_base::rows::label::Name;

/// The operational states of RFC 2863 (`IF_OPER_*`, `include/uapi/linux/if.h`). A state is a `u8`.
pub struct OperState;

/// The numbers, and the constants' names without `IF_OPER_`.
impl NumberNames for OperState {
    type Number = u8;

    ghost names = { oper_state_names };

    fn names() -> &'static [Name] {
        link_base::names![
            0 "UNKNOWN"
            1 "NOTPRESENT"
            2 "DOWN"
            3 "LOWERLAYERDOWN"
            4 "TESTING"
            5 "DORMANT"
            6 "UP"
        ]
    }
}

/// Which operational state a link gets when its carrier appears (`IF_LINK_MODE_*`, `include/uapi/linux/if.h`). A mode
/// is a `u8`.
pub struct LinkMode;

/// The numbers, and the constants' names without `IF_LINK_MODE_`.
impl NumberNames for LinkMode {
    type Number = u8;

    ghost names = { link_mode_names };

    fn names() -> &'static [Name] {
        link_base::names![0 "DEFAULT" 1 "DORMANT" 2 "TESTING"]
    }
}

/// What causes a message about a link (`IFLA_EVENT_*`, `include/uapi/linux/if_link.h`). A cause is a `u32`.
pub struct LinkEvent;

/// The numbers, and their names as `ip` prints them.
impl NumberNames for LinkEvent {
    type Number = u32;

    ghost names = { link_event_names };

    fn names() -> &'static [Name] {
        link_base::names![
            0 "NONE"
            1 "REBOOT"
            2 "FEATURE CHANGE"
            3 "BONDING FAILOVER"
            4 "NOTIFY PEERS"
            5 "RESEND IGMP"
            6 "BONDING OPTION"
        ]
    }
}

/// What a request for links asks for in addition (`RTEXT_FILTER_*`, `include/uapi/linux/rtnetlink.h`): flags of a
/// `u32`.
pub struct ExtMask;

/// The bits, and the constants' names without `RTEXT_FILTER_`.
impl NumberNames for ExtMask {
    type Number = u32;

    ghost names = { ext_mask_names };

    fn names() -> &'static [Name] {
        link_base::names![
            0x1 "VF"
            0x2 "BRVLAN"
            0x4 "BRVLAN_COMPRESSED"
            0x8 "SKIP_STATS"
            0x10 "MRP"
            0x20 "CFM_CONFIG"
            0x40 "CFM_STATUS"
            0x80 "MST"
        ]
    }
}

/// Where a program for received packets is attached (`XDP_ATTACHED_*`, `include/uapi/linux/if_link.h`). A place is a
/// `u8`.
pub struct XdpAttached;

/// The numbers, and their names as `ip` prints them; it prints nothing for 0.
impl NumberNames for XdpAttached {
    type Number = u8;

    ghost names = { xdp_attached_names };

    fn names() -> &'static [Name] {
        link_base::names![0 "none" 1 "xdp" 2 "xdpgeneric" 3 "xdpoffload" 4 "xdpmulti"]
    }
}

/// How a program for received packets is attached (`XDP_FLAGS_*`, `include/uapi/linux/if_link.h`): flags of a `u32`.
pub struct XdpFlags;

/// The bits, and the constants' names without `XDP_FLAGS_`.
impl NumberNames for XdpFlags {
    type Number = u32;

    ghost names = { xdp_flags_names };

    fn names() -> &'static [Name] {
        link_base::names![
            0x1 "UPDATE_IF_NOEXIST"
            0x2 "SKB_MODE"
            0x4 "DRV_MODE"
            0x8 "HW_MODE"
            0x10 "REPLACE"
        ]
    }
}
