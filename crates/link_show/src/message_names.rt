//! The names in messages.

ghost use Rattle.std.specs.Prelude.{◌≡◌};
ghost use Rattle.link_base.specs.Labels.{names_in};
ghost use Rattle.link_show.specs.MessageNames.{flags_of};

use link_base::names;
use link_base::rows::label::Name;
use link_messages::message_types::{
    NLMSG_DONE, NLMSG_ERROR, NLMSG_NOOP, NLMSG_OVERRUN, RTM_DELLINK, RTM_DELLINKPROP, RTM_GETLINK,
    RTM_GETLINKPROP, RTM_NEWLINK, RTM_NEWLINKPROP, RTM_SETLINK,
};

/// Names of types of messages: those of the constants.
macro_rules! types {
    ($($kind:ident)*) => {
        &[$(Name { number: $kind as u64, text: stringify!($kind) },)*]
    };
}

/// Types of messages (`include/uapi/linux/netlink.h`, `rtnetlink.h`).
pub const MESSAGE_TYPES: &[Name] = types![
    NLMSG_NOOP
    NLMSG_ERROR
    NLMSG_DONE
    NLMSG_OVERRUN
    RTM_NEWLINK
    RTM_DELLINK
    RTM_GETLINK
    RTM_SETLINK
    RTM_NEWLINKPROP
    RTM_DELLINKPROP
    RTM_GETLINKPROP
];

/// Flags of all messages (`NLM_F_`, `include/uapi/linux/netlink.h`), and then these.
macro_rules! flags {
    ($($number:literal $text:literal)*) => {
        names![
            0x1 "REQUEST"
            0x2 "MULTI"
            0x4 "ACK"
            0x8 "ECHO"
            0x10 "DUMP_INTR"
            0x20 "DUMP_FILTERED"
            $($number $text)*
        ]
    };
}

/// Flags of messages of other types than those below.
const COMMON_FLAGS: &[Name] = flags![];

/// Flags of messages that make or change a link.
const NEW_FLAGS: &[Name] = flags![0x100 "REPLACE" 0x200 "EXCL" 0x400 "CREATE" 0x800 "APPEND"];

/// Flags of messages that ask for links.
const GET_FLAGS: &[Name] = flags![0x100 "ROOT" 0x200 "MATCH" 0x400 "ATOMIC"];

/// Flags of messages that delete a link.
const DELETE_FLAGS: &[Name] = flags![0x100 "NONREC" 0x200 "BULK"];

/// Flags of NLMSG_ERROR and NLMSG_DONE.
const ERROR_FLAGS: &[Name] = flags![0x100 "CAPPED" 0x200 "ACK_TLVS"];

/// Address families (`AF_`, `include/linux/socket.h`) that are written by name.
pub const ADDRESS_FAMILIES: &[Name] = names![0 "AF_UNSPEC" 7 "AF_BRIDGE"];

/// Types of devices (`ARPHRD_`, `include/uapi/linux/if_arp.h`) that are written by name.
pub const DEVICE_TYPES: &[Name] = names![1 "ETHER" 280 "CAN" 772 "LOOPBACK" 65534 "NONE"];

/// Flags of devices (`IFF_`, `include/uapi/linux/if.h`).
pub const DEVICE_FLAGS: &[Name] = names![
    0x1 "UP"            0x2 "BROADCAST"    0x4 "DEBUG"         0x8 "LOOPBACK"
    0x10 "POINTOPOINT"  0x20 "NOTRAILERS"  0x40 "RUNNING"      0x80 "NOARP"
    0x100 "PROMISC"     0x200 "ALLMULTI"   0x400 "MASTER"      0x800 "SLAVE"
    0x1000 "MULTICAST"  0x2000 "PORTSEL"   0x4000 "AUTOMEDIA"  0x8000 "DYNAMIC"
    0x10000 "LOWER_UP"  0x20000 "DORMANT"  0x40000 "ECHO"
];

/// Returns the names of the flags of messages of type `kind`.
pub fn flag_names(kind: u16) -> &'static [Name]
    ensures { names_in result.now ≡ flags_of kind }
{
    match kind {
        RTM_NEWLINK | RTM_SETLINK | RTM_NEWLINKPROP => NEW_FLAGS,
        RTM_GETLINK | RTM_GETLINKPROP => GET_FLAGS,
        RTM_DELLINK | RTM_DELLINKPROP => DELETE_FLAGS,
        NLMSG_ERROR | NLMSG_DONE => ERROR_FLAGS,
        _ => COMMON_FLAGS,
    }
}
