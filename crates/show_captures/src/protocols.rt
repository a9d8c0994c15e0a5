//! The names of the protocols of netlink (`NETLINK_`, include/uapi/linux/netlink.h).

ghost use Rattle.std.specs.Prelude.{◌≡◌, option_map};
ghost use Rattle.link_base.specs.Labels.{name_in};
ghost use Rattle.show_captures.specs.Protocol.{protocols};

use link_base::names;
use link_base::rows::label::{Name, name_of};

const PROTOCOLS: &[Name] = names![
    0 "NETLINK_ROUTE"
    1 "NETLINK_UNUSED"
    2 "NETLINK_USERSOCK"
    3 "NETLINK_FIREWALL"
    4 "NETLINK_SOCK_DIAG"
    5 "NETLINK_NFLOG"
    6 "NETLINK_XFRM"
    7 "NETLINK_SELINUX"
    8 "NETLINK_ISCSI"
    9 "NETLINK_AUDIT"
    10 "NETLINK_FIB_LOOKUP"
    11 "NETLINK_CONNECTOR"
    12 "NETLINK_NETFILTER"
    13 "NETLINK_IP6_FW"
    14 "NETLINK_DNRTMSG"
    15 "NETLINK_KOBJECT_UEVENT"
    16 "NETLINK_GENERIC"
    18 "NETLINK_SCSITRANSPORT"
    19 "NETLINK_ECRYPTFS"
    20 "NETLINK_RDMA"
    21 "NETLINK_CRYPTO"
    22 "NETLINK_SMC"
];

/// Returns the name of a protocol.
pub fn name_of_protocol(protocol: u16) -> Option<&'static str>
    ensures { option_map (λ text. text.now) result ≡ name_in protocols protocol }
{
    name_of(PROTOCOLS, protocol.into())
}
