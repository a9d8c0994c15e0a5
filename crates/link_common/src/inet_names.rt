//! The names of numbers and flags in the attributes of a link for IPv6.

ghost use Rattle.link_common.specs.InetNames.{addr_gen_mode_names, inet6_flags_names};

use link_base::NumberNames;
use link_base::rows::label::Name;

/// How interface identifiers of IPv6 addresses are made (`enum in6_addr_gen_mode`, `include/uapi/linux/if_link.h`). A
/// mode is a `u8`.
pub struct AddrGenMode;

/// The numbers, and their names as `ip` prints them.
impl NumberNames for AddrGenMode {
    type Number = u8;

    ghost names = { addr_gen_mode_names };

    fn names() -> &'static [Name] {
        link_base::names![0 "eui64" 1 "none" 2 "stable_secret" 3 "random"]
    }
}

/// The state of address configuration for IPv6 (`IF_*`, `include/net/if_inet6.h`): flags of a `u32`.
pub struct Inet6Flags;

/// The bits, and the constants' names without `IF_`.
impl NumberNames for Inet6Flags {
    type Number = u32;

    ghost names = { inet6_flags_names };

    fn names() -> &'static [Name] {
        link_base::names![
            0x10 "RS_SENT"
            0x20 "RA_RCVD"
            0x40 "RA_MANAGED"
            0x80 "RA_OTHERCONF"
            0x80000000 "READY"
        ]
    }
}
