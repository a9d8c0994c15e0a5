//! Link attributes of VLAN devices, CAN controllers, DSA ports, and HSR and PRP devices.
#![tactic(auto)]

mod can;
mod can_flags;
mod can_limits;
mod can_limits_seen;
mod can_modes;
mod can_records;
mod can_state;
mod can_tdc;
mod dsa;
mod hsr;
pub mod laws;
mod vlan;
mod vlan_flags;

pub use can::InfoCan;
pub use can_flags::CanCtrlModeFlags;
pub use can_limits::CanBitTimingConst;
pub use can_limits_seen::CanBitTimingLimits;
pub use can_modes::CanCtrlModeExt;
pub use can_records::{CanBerrCounter, CanBitTiming, CanClock, CanCtrlMode};
pub use can_state::CanState;
pub use can_tdc::CanTdc;
pub use dsa::InfoDsa;
pub use hsr::{HsrProtocol, InfoHsr};
pub use vlan::{InfoVlan, VlanQosMapping};
pub use vlan_flags::VlanFlags;
