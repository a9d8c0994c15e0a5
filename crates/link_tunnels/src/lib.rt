//! Link attributes of tunnel devices.
#![tactic(auto)]

mod geneve;
mod geneve_port_range;
pub mod laws;
mod vxlan;
mod vxlan_header;
mod vxlan_names;
mod vxlan_port_range;

pub use geneve::InfoGeneve;
pub use geneve_port_range::GenevePortRange;
pub use vxlan::InfoVxlan;
pub use vxlan_header::VxlanHeader;
pub use vxlan_names::{VxlanDf, VxlanLabelPolicy};
pub use vxlan_port_range::VxlanPortRange;
