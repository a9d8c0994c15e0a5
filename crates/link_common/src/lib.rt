//! Attributes that links of every kind have, and the lists in them.
#![tactic(auto)]

mod af_spec;
mod cache_info;
mod devlink_port;
mod dpll_pin;
mod inet;
mod inet6;
mod inet_names;
pub mod laws;
mod link;
mod link_info;
mod link_map;
mod link_names;
mod link_property;
mod link_xdp;
mod mctp;
mod places;
mod proto_down_reason;
mod reply;

pub use af_spec::AfSpecUnspec;
pub use cache_info::CacheInfo;
pub use devlink_port::DevlinkPort;
pub use dpll_pin::DpllPin;
pub use inet::AfSpecInet;
pub use inet_names::{AddrGenMode, Inet6Flags};
pub use inet6::AfSpecInet6;
pub use link::LinkAttribute;
pub use link_info::LinkInfo;
pub use link_map::LinkMap;
pub use link_names::{ExtMask, LinkEvent, LinkMode, OperState, XdpAttached, XdpFlags};
pub use link_property::LinkProperty;
pub use link_xdp::LinkXdp;
pub use mctp::AfSpecMctp;
pub use places::{Icmp6Stats, Ipv4Conf, Ipv6Conf, Ipv6Stats, LinkStats, LinkStats64};
pub use proto_down_reason::ProtoDownReason;
pub use reply::ReplyAttribute;
