//! Link attributes of other virtual devices than tunnels, and of their ports.
#![tactic(auto)]

mod ipvlan;
mod macvlan;
mod macvlan_address;
mod netkit;
mod tun;
mod veth;
mod vrf;
mod vrf_port;

pub use ipvlan::InfoIpVlan;
pub use macvlan::InfoMacVlan;
pub use macvlan_address::MacVlanAddress;
pub use netkit::InfoNetkit;
pub use tun::InfoTun;
pub use veth::InfoVeth;
pub use vrf::InfoVrf;
pub use vrf_port::InfoVrfPort;
